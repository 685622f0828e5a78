#![tactic(auto)]

// Reference records, `!!!key: value`: the key and the value, without the white space around them.
ghost use Rattle.std.specs.Prelude.{◌≡◌, true, ◌+◌, ◌-◌, ◌≤◌, ◌<◌, length, take, drop};
ghost use Rattle.reference.specs.Trim.{white, width, At, leading_white, trimmed_end};
ghost use Rattle.reference.specs.Reference.{key_of, span_of, reference_of};

// What a reference record's key names.
#[derive(Clone, Copy, PartialEq, Eq, Debug)]
pub enum Key {
    Title,
    Composer,
    Lyricist,
    Other,
}

// A piece of a text; the empty one is 0, 0.
#[derive(Clone, Copy, PartialEq, Eq, Debug)]
pub struct Span {
    pub at: usize,
    pub len: usize,
}

// A reference record: its key and its value as pieces of the record behind `!!!`.
#[derive(Clone, Copy, PartialEq, Eq, Debug)]
pub struct Reference {
    pub key: Key,
    pub key_span: Span,
    pub value_span: Span,
}

// Whether a code point is white space.
#[tactic(auto, using(crate::proofs::WhiteLaws::white_key, crate::proofs::WhiteLaws::white_run, crate::proofs::WhiteLaws::white_not), unfolding(crate::specs::Trim::white))]
pub fn white(c: u32) -> bool
    ensures { result ≡ white c }
{
    matches!(c, 9..=13 | 32 | 133 | 160 | 5760 | 8192..=8202 | 8232 | 8233 | 8239 | 8287 | 12288)
}

// The bytes of the character at the front of s; a byte at which none stands counts as one.
#[tactic(auto, using(crate::proofs::CharacterLaws::width_max))]
fn width(s: &[u8]) -> usize
    ensures { result ≡ width s.now }
{
    utf8::char_length(s).max(1)
}

// A character of a text: where its bytes end, and whether it is white.
#[derive(Clone, Copy, PartialEq, Eq, Debug)]
struct Turn {
    next: usize,
    blank: bool,
}

// The character at i.
#[tactic(auto, using(crate::proofs::LoopLaws::width_fits))]
fn character(s: &[u8], i: usize) -> Turn
    requires { i < length s.now }
    ensures { At s.now i result.next result.blank }
{
    let t = &s[i..];
    let next = i + width(t);
    let blank = white(utf8::code_point(t));
    Turn { next, blank }
}

// Whether a byte is a printed ASCII character.
fn ink(b: u8) -> bool
    ensures { result ≡ true → (32 < b) × (b < 128) }
{
    matches!(b, 33..=127)
}

// Whether a byte is a white ASCII character.
#[tactic(auto, using(crate::proofs::WhiteLaws::white_blank, crate::proofs::WhiteLaws::white_space))]
fn space(b: u8) -> bool
    ensures { result ≡ true → (white b ≡ true) × (b < 128) }
{
    matches!(b, 9..=13 | 32)
}

// How many bytes the white characters at the front of s have.
#[tactic(auto, using(std::proofs::lemmas::Bool::Decides::nat_tests, crate::proofs::LoopLaws::leading))]
pub fn leading_white(s: &[u8]) -> usize
    ensures { (result ≡ leading_white s.now) × (result ≤ length s.now) }
{
    let mut i = 0;
    // Stays: no plainer: a turn goes on by a byte, or a character where it is neither ink nor a blank; only the turn knows which.
    while i < s.len() {
        let b = s[i];
        if ink(b) {
            return i;
        }
        if space(b) {
            i += 1;
        } else {
            let c = character(s, i);
            if !c.blank {
                return i;
            }
            i = c.next;
        }
    }
    i
}

// Where s ends without the white characters at its end, character by character from the front. A call: few texts come here.
#[inline(never)]
#[tactic(auto, using(std::proofs::lemmas::Bool::Decides::nat_tests, crate::proofs::LoopLaws::last_ends))]
fn last_end(s: &[u8]) -> usize
    ensures { (result ≡ trimmed_end s.now) × (result ≤ length s.now) }
{
    let mut end = 0;
    let mut i = 0;
    // Stays: no plainer: as in `leading_white`, a turn goes on by a byte or by a character.
    while i < s.len() {
        if ink(s[i]) {
            i += 1;
            end = i;
        } else {
            let c = character(s, i);
            i = c.next;
            if !c.blank {
                end = i;
            }
        }
    }
    end
}

// Where s ends without the white characters at its end; from the end, as long as they are ASCII.
#[tactic(auto, using(crate::proofs::EndLaws::endings))]
pub fn trimmed_end(s: &[u8]) -> usize
    ensures { (result ≡ trimmed_end s.now) × (result ≤ length s.now) }
{
    // Stays: an index, and no `rposition`, which takes a second test of the last byte (references take 3% more with it).
    for i in (0..s.len()).rev() {
        if ink(s[i]) {
            return i + 1;
        }
        if !space(s[i]) {
            return last_end(&s[..=i]);
        }
    }
    0
}

// The piece of s from `from` to `to`, without the white space at its ends.
#[tactic(auto, using(crate::proofs::SpanLaws::span_none, crate::proofs::SpanLaws::span_some))]
fn trim(s: &[u8], from: usize, to: usize) -> Span
    requires { (from ≤ to) × (to ≤ length s.now) }
    ensures { result ≡ span_of from (take (to - from) (drop from s.now)) }
{
    let t = &s[from..to];
    let a = leading_white(t);
    let n = trimmed_end(&t[a..]);
    if n == 0 {
        return Span { at: 0, len: 0 };
    }
    Span {
        at: from + a,
        len: n,
    }
}

// What a trimmed key names.
#[tactic(auto, using(crate::proofs::KeyLaws::key_title, crate::proofs::KeyLaws::key_composer, crate::proofs::KeyLaws::key_lyricist, crate::proofs::KeyLaws::key_other))]
pub fn key_of(k: &[u8]) -> Key
    ensures { result ≡ key_of k.now }
{
    match k {
        b"OTL" => Key::Title,
        b"COM" => Key::Composer,
        b"LYR" => Key::Lyricist,
        _ => Key::Other,
    }
}

// The reference record whose bytes behind `!!!` are s.
#[tactic(auto, using(crate::proofs::ReferenceLaws::key_fits, crate::proofs::ReferenceLaws::reference_is))]
pub fn reference_of(s: &[u8]) -> Reference
    ensures { result ≡ reference_of s.now }
{
    let colon = slices::find(s, b':');
    let key_span = trim(s, 0, colon);
    let key = key_of(&s[key_span.at..key_span.at + key_span.len]);
    let behind = (colon + 1).min(s.len());
    let value_span = trim(s, behind, s.len());
    Reference {
        key,
        key_span,
        value_span,
    }
}
