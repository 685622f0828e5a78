#![tactic(auto)]

// A text as lines and tokens, and what a line or a token is.
ghost use Rattle.std.specs.Prelude.{◌≡◌, ◌+◌, ◌-◌, ◌≤◌, ◌<◌, true, length, get_or};
ghost use Rattle.lines.specs.Lines.{piece_end, without_crs, kind_of};
ghost use Rattle.lines.specs.Tokens.{tokens_of, is_null, is_kern, is_exclusive, is_star, is_empty};

// What a line begins with.
#[derive(Clone, Copy, PartialEq, Eq, Debug)]
pub enum Kind {
    Empty,
    Reference,
    Comment,
    Star,
    Bar,
    Data,
}

// The length of a line without its trailing CRs, where it ends with one. A call: inlined, its loop takes registers of the reader's.
#[inline(never)]
#[tactic(auto, using(crate::proofs::TrimLaws::cr_alone, crate::proofs::TrimLaws::cr_dropped))]
fn trimmed(line: &[u8]) -> usize
    requires { (0 < length line.now) × (get_or line.now (length line.now - 1) 0 ≡ 13) }
    ensures { (result ≡ length (without_crs line.now)) × (result ≤ length line.now) }
{
    let before = line.len() - 1;
    if before == 0 {
        return 0;
    }
    if line[before - 1] != b'\r' {
        return before;
    }
    line.iter()
        .rposition(|&x| x != b'\r')
        .map_or(0, |last| last + 1)
}

// The length of a line without its trailing CRs.
#[inline(always)]
#[tactic(auto, using(crate::proofs::TrimLaws::whole_kept))]
pub fn content(line: &[u8]) -> usize
    ensures { (result ≡ length (without_crs line.now)) × (result ≤ length line.now) }
{
    let n = line.len();
    if n == 0 {
        return 0;
    }
    if line[n - 1] != b'\r' {
        return n;
    }
    trimmed(line)
}

// The index of the next LF from `from` on, or the length. Lines begun by `!` are long, and searched by blocks from the start.
#[tactic(auto, using(crate::proofs::PieceLaws::end_past))]
pub fn line_end(text: &[u8], from: usize) -> usize
    ensures { result ≡ piece_end 10 text.now from }
{
    match text.get(from..) {
        None => from,
        Some(rest) if rest.starts_with(b"!") => from + search::find_from(rest, b'\n', 0),
        Some(rest) => from + search::find_far(rest, b'\n'),
    }
}

// The index of the next TAB from `from` on, or the length.
#[tactic(auto, using(crate::proofs::PieceLaws::end_past))]
pub fn token_end(line: &[u8], from: usize) -> usize
    ensures { result ≡ piece_end 9 line.now from }
{
    match line.get(from..) {
        None => from,
        Some(rest) => from + slices::find(rest, b'\t'),
    }
}

// How many tokens a line has.
pub fn token_count(line: &[u8]) -> usize
    ensures { (result ≡ length (tokens_of line.now)) × (result ≤ length line.now + 1) }
{
    search::count(line, b'\t')
}

// What a line without trailing CRs is.
#[tactic(auto, using(crate::proofs::KindLaws::kinds))]
pub fn line_kind(line: &[u8]) -> Kind
    ensures { result ≡ kind_of line.now }
{
    match line {
        [] => Kind::Empty,
        [b'!', b'!', b'!', ..] => Kind::Reference,
        [b'!', ..] => Kind::Comment,
        [b'*', ..] => Kind::Star,
        [b'=', ..] => Kind::Bar,
        _ => Kind::Data,
    }
}

// Whether a token is `.`.
#[tactic(auto, using(crate::proofs::TokenLaws::nulls))]
pub fn is_null(token: &[u8]) -> bool
    ensures { result ≡ is_null token.now }
{
    matches!(token, b".")
}

// Whether a token is `**kern`.
#[tactic(auto, unfolding(crate::specs::Tokens::is_kern))]
pub fn is_kern(token: &[u8]) -> bool
    ensures { result ≡ is_kern token.now }
{
    slices::same(token, b"**kern")
}

// Whether a token begins `**`.
pub fn is_exclusive(token: &[u8]) -> bool
    ensures { result ≡ is_exclusive token.now }
{
    token.starts_with(b"**")
}

// Whether a token begins `*`.
pub fn is_star(token: &[u8]) -> bool
    ensures { result ≡ is_star token.now }
{
    token.starts_with(b"*")
}

// Whether a token has no byte.
#[tactic(auto, using(crate::proofs::TokenLaws::empty_is))]
pub fn is_empty(token: &[u8]) -> bool
    ensures { result ≡ is_empty token.now }
{
    token.is_empty()
}
