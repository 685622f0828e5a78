#![tactic(auto)]

// A record repaired to the number of active spines, and what questions 6 and 7 say of it.
ghost use Rattle.std.specs.Prelude.{◌≡◌, ◌&&◌, not, take, drop};
ghost use Rattle.slices.specs.Compare.{same_bytes};
ghost use Rattle.lines.specs.Tokens.{tokens_of, is_star, is_empty};
ghost use Rattle.repair.specs.Repair.{each, first_of, is_ordinary, identical_bars, repaired_of};

use paths::PathToken;

// What is done to a record: nothing, surplus empty tokens cut, filled with `*`, filled with its barline.
#[derive(Clone, Copy, Debug, PartialEq, Eq)]
pub enum Repair {
    Whole,
    Cut,
    Stars,
    Bars,
}

// Why a record can't be repaired: question 6 with the record's own count of tokens, or question 7.
#[derive(Clone, Copy, Debug, PartialEq, Eq)]
pub enum Unrepaired {
    Uneven(usize),
    Mixed,
}

// Whether the tokens behind the first k are all empty.
fn blank(line: &[u8], k: usize) -> bool
    ensures { result ≡ each is_empty (drop k (tokens_of line.now)) }
{
    let mut left = k;
    // Stays: one pass over the bytes, and no `split().skip(k).all()`, which takes 21 instructions a field.
    for b in line {
        if *b == b'\t' {
            left = left.saturating_sub(1);
        } else if left == 0 {
            return false;
        }
    }
    true
}

// Whether the line begins `*` and one of its first k tokens doesn't.
fn mixed(line: &[u8], k: usize) -> bool
    ensures { result ≡ (is_star (first_of (tokens_of line.now)) && not (each is_star (take k (tokens_of line.now)))) }
{
    lines::is_star(line) && !line.split(|b| *b == b'\t').take(k).all(lines::is_star)
}

// Whether a token begins `*` and is no path token.
fn is_ordinary(token: &[u8]) -> bool
    ensures { result ≡ is_ordinary token.now }
{
    lines::is_star(token) && paths::path_token(token) == PathToken::Other
}

// Whether all tokens are.
fn ordinary(line: &[u8]) -> bool
    ensures { result ≡ each is_ordinary (tokens_of line.now) }
{
    line.split(|b| *b == b'\t').all(is_ordinary)
}

// Whether all tokens are this one.
fn alike(line: &[u8], first: &[u8]) -> bool
    ensures { result ≡ each (same_bytes first.now) (tokens_of line.now) }
{
    line.split(|b| *b == b'\t').all(|t| slices::same(t, first))
}

// Whether the first token begins `=` and all are identical.
fn identical_bars(line: &[u8]) -> bool
    ensures { result ≡ identical_bars (tokens_of line.now) }
{
    let end = lines::token_end(line, 0);
    slices::begins(line, b"=") && alike(line, &line[..end])
}

// What the repair comes to. A record of the right width that doesn't begin `*` costs a count of its tabs.
pub fn repair_record(line: &[u8], active: usize) -> Result<Repair, Unrepaired>
    ensures { result ≡ repaired_of active (tokens_of line.now) }
{
    let count = lines::token_count(line);
    if active < count {
        if !blank(line, active) {
            return Err(Unrepaired::Uneven(count));
        }
        if mixed(line, active) {
            return Err(Unrepaired::Mixed);
        }
        return Ok(Repair::Cut);
    }
    if count < active {
        if ordinary(line) {
            return Ok(Repair::Stars);
        }
        if count >= 2 && identical_bars(line) {
            return Ok(Repair::Bars);
        }
        return Err(Unrepaired::Uneven(count));
    }
    if mixed(line, count) {
        return Err(Unrepaired::Mixed);
    }
    Ok(Repair::Whole)
}
