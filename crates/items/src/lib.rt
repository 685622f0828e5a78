#![tactic(auto)]

// A token as items: runs of digits, ratios, runs of one letter, blanks, and single bytes.
ghost use Rattle.std.specs.Prelude.{◌≡◌, ℕ, true, false, ◌+◌, ◌<◌, ◌≤◌, length, get_or, drop};
ghost use Rattle.items.specs.Items.{is_digit, is_letter, first, goes_on, first_piece, next_item};

use duration::Value;

#[derive(Clone, Copy, PartialEq, Eq, Debug)]
pub enum Item {
    Digits(Option<Value>),
    Ratio(Option<Value>),
    Letters { letter: u8, count: usize },
    Blank,
    Mark(u8),
}

// An item, and the index behind it.
#[derive(Clone, Copy, PartialEq, Eq, Debug)]
pub struct Next {
    pub item: Item,
    pub end: usize,
}

// Whether a byte is a digit.
#[tactic(auto, unfolding(pitch::specs::Pitch::within))]
pub fn is_digit(b: u8) -> bool
    ensures { result ≡ is_digit b }
{
    b.is_ascii_digit()
}

// Whether a byte is a letter of a step.
#[tactic(auto, using(std::proofs::lemmas::Bool::Decides::nat_tests), unfolding(crate::specs::Items::is_letter, pitch::specs::Pitch::within))]
pub fn is_letter(b: u8) -> bool
    ensures { result ≡ is_letter b }
{
    matches!(b, b'a'..=b'g' | b'A'..=b'G')
}

// The end of the bytes that a test takes, from an index on.
// Stays: no plainer: that an index lies in its token is a fact of both; a slice from there on would answer other indices.
pub fn end_of<F: Fn(u8) -> bool>(token: &[u8], from: usize, takes: F) -> usize
    requires callable { F.IsAlwaysCallable takes }
    requires inside { from ≤ length token.now }
    ensures on { from ≤ result }
    ensures high { result ≤ length token.now }
    ensures taken { (j : ℕ) → from ≤ j → j < result → F.post takes (get_or token.now j 0) true }
    ensures stops { result < length token.now → F.post takes (get_or token.now result 0) false }
{
    let mut end = from;
    for b in &token[from..] {
        if !takes(*b) {
            return end;
        }
        end += 1;
    }
    end
}

// The end of the digits that begin at an index.
pub fn digits_end(token: &[u8], from: usize) -> usize
    requires { (from < length token.now) × (is_digit (get_or token.now from 0) ≡ true) }
    ensures { result ≡ from + first (drop from token.now) }
{
    end_of(token, from + 1, |b| is_digit(b))
}

// Whether a ratio goes on at an index: a `%` stands there, and a digit behind it.
#[tactic(auto, using(crate::proofs::NextLaws::going_on))]
fn goes_on(token: &[u8], at: usize) -> bool
    requires { at ≤ length token.now }
    ensures { result ≡ goes_on (drop at token.now) }
{
    if token.len() <= at + 1 || token[at] != b'%' {
        return false;
    }
    is_digit(token[at + 1])
}

// The end of the length that begins at an index.
#[tactic(auto, using(crate::proofs::NextLaws::lengths))]
pub fn length_end(token: &[u8], from: usize) -> usize
    requires { (from < length token.now) × (is_digit (get_or token.now from 0) ≡ true) }
    ensures { result ≡ from + first_piece (drop from token.now) }
{
    let end = digits_end(token, from);
    if goes_on(token, end) {
        return digits_end(token, end + 1);
    }
    end
}

// The end of the run of a letter that begins at an index.
pub fn letter_end(token: &[u8], from: usize) -> usize
    requires { (from < length token.now) × (is_letter (get_or token.now from 0) ≡ true) }
    ensures { result ≡ from + first (drop from token.now) }
{
    let letter = token[from];
    end_of(token, from + 1, |b| b == letter)
}

// The length that begins at an index: a run of digits, or a ratio.
#[tactic(auto, using(crate::proofs::NextLaws::lengths))]
pub fn length_at(token: &[u8], from: usize) -> Next
    requires { (from < length token.now) × (is_digit (get_or token.now from 0) ≡ true) }
    ensures { result ≡ next_item token.now from }
{
    let digits = digits_end(token, from);
    if goes_on(token, digits) {
        let end = digits_end(token, digits + 1);
        return Next {
            item: Item::Ratio(duration::spelled_value(&token[from..end])),
            end,
        };
    }
    Next {
        item: Item::Digits(duration::kern_duration(&token[from..digits])),
        end: digits,
    }
}

// The item that begins at an index.
#[tactic(auto, using(crate::proofs::RunLaws::next_none, crate::proofs::NextLaws::next_items))]
pub fn next_item(token: &[u8], from: usize) -> Next
    ensures { result ≡ next_item token.now from }
{
    if token.len() <= from {
        return Next {
            item: Item::Blank,
            end: from,
        };
    }
    let b = token[from];
    if is_digit(b) {
        return length_at(token, from);
    }
    if is_letter(b) {
        let end = letter_end(token, from);
        let count = end - from;
        return Next {
            item: Item::Letters { letter: b, count },
            end,
        };
    }
    let end = from + 1;
    if b == b' ' {
        return Next {
            item: Item::Blank,
            end,
        };
    }
    Next {
        item: Item::Mark(b),
        end,
    }
}
