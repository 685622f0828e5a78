#![tactic(auto)]

// UTF-8 by RFC 3629: the length of the well-formed part of a text, and the character at its front.
ghost use Rattle.std.specs.Prelude.{◌≡◌, true, cond, ◌∷◌, ℕ, ◌+◌, ◌-◌, ◌*◌, ◌%◌, ◌≤◌, ◌<◌, length, drop, get_or};
ghost use Rattle.utf8.specs.Utf8.{tails, begins, char_length, utf8_length, Passed, code_point};

// Whether the byte at i lies in lo..=hi.
#[tactic(auto, using(std::proofs::lemmas::Bool::Decides::nat_tests, crate::proofs::RowLaws::ranges))]
fn between(s: &[u8], i: usize, lo: u8, hi: u8) -> bool
    ensures { result ≡ begins ((lo, hi) ∷ tails 0) (drop i s.now) }
{
    i < s.len() && lo <= s[i] && s[i] <= hi
}

// Whether the bytes from `from` up to n are tails.
fn tailed(s: &[u8], from: usize, n: usize) -> bool
    ensures { result ≡ begins (tails (n - from)) (drop from s.now) }
{
    (from..n).all(|i| between(s, i, 0x80, 0xBF))
}

// n where the byte at 1 lies in lo..=hi and those behind it up to n are tails, else 0.
fn rest(s: &[u8], lo: u8, hi: u8, n: usize) -> usize
    requires { 2 ≤ n }
    ensures { result ≡ cond (begins ((lo, hi) ∷ tails (n - 2)) (drop 1 s.now)) n 0 }
{
    if between(s, 1, lo, hi) && tailed(s, 2, n) {
        n
    } else {
        0
    }
}

// The length of the character at the front of s, 0 where none stands there.
#[tactic(auto, using(crate::proofs::RowLaws::leads_three, crate::proofs::LengthLaws::char_empty, crate::proofs::RowLaws::leads_none), unfolding(crate::specs::Utf8::table))]
pub fn char_length(s: &[u8]) -> usize
    ensures { result ≡ char_length s.now }
{
    match s {
        [0x00..=0x7F, ..] => 1,
        [0xC2..=0xDF, ..] => rest(s, 0x80, 0xBF, 2),
        [0xE0, ..] => rest(s, 0xA0, 0xBF, 3),
        [0xED, ..] => rest(s, 0x80, 0x9F, 3),
        [0xE1..=0xEF, ..] => rest(s, 0x80, 0xBF, 3),
        [0xF0, ..] => rest(s, 0x90, 0xBF, 4),
        [0xF1..=0xF3, ..] => rest(s, 0x80, 0xBF, 4),
        [0xF4, ..] => rest(s, 0x80, 0x8F, 4),
        _ => 0,
    }
}

// The bits so far, and behind them the six of the tail at i.
fn behind(high: u32, s: &[u8], i: usize) -> u32
    requires { (high < 65536) × (i < length s.now) }
    ensures { result ≡ high * 64 + get_or s.now i 0 % 64 }
{
    high * 64 + u32::from(s[i] % 64)
}

// The code point of the character at the front of s, 0 where none stands there.
#[tactic(auto, using(crate::proofs::PointLaws::points))]
pub fn code_point(s: &[u8]) -> u32
    ensures { result ≡ code_point s.now }
{
    match char_length(s) {
        0 => 0,
        1 => u32::from(s[0]),
        2 => behind(u32::from(s[0]) % 32, s, 1),
        3 => behind(behind(u32::from(s[0]) % 16, s, 1), s, 2),
        _ => behind(behind(behind(u32::from(s[0]) % 8, s, 1), s, 2), s, 3),
    }
}

// The N bytes from i on, joined bit by bit.
#[tactic(auto, using(crate::proofs::BlockLaws::run_turn))]
fn joined<const N: usize>(s: &[u8], i: usize) -> u8
    requires { i + N ≤ length s.now }
    ensures { result < 128 → (k : ℕ) → k < N → get_or s.now (i + k) 0 < 128 }
{
    let mut bits = 0;
    for b in &s[i..i + N] {
        bits |= *b;
    }
    bits
}

// Where the blocks of 64 bytes below 128 from `from` on end.
#[tactic(auto, using(crate::proofs::BlockLaws::blocks_first))]
fn blocks_64(s: &[u8], from: usize) -> usize
    requires { from ≤ length s.now }
    ensures { Passed s.now from result }
{
    let mut i = from;
    // Stays: no plainer: `onward` asks `joined` at an index too, so a `for` over blocks would take a second one, over a block.
    while 64 <= s.len() - i {
        if 128 <= joined::<64>(s, i) {
            return i;
        }
        i += 64;
    }
    i
}

// Whether a character of N bytes, led by lo..=hi, stands at i.
// Stays: no plainer: no type bounds a const parameter, so `0 < N` is asked.
#[tactic(auto, using(crate::proofs::RowLaws::begins_split))]
fn row<const N: usize>(s: &[u8], lo: u8, hi: u8, i: usize) -> bool
    requires { (0 < N) × (N ≤ 4) × (i ≤ length s.now) }
    ensures { result ≡ begins ((lo, hi) ∷ tails (N - 1)) (drop i s.now) }
{
    between(s, i, lo, hi) && tailed(s, i + 1, i + N)
}

// Where the characters of N bytes, led by lo..=hi, from `from` on end.
#[tactic(auto, using(crate::proofs::BlockLaws::blocks_first, crate::proofs::BlockLaws::blocks_on))]
fn rows<const N: usize>(s: &[u8], lo: u8, hi: u8, from: usize) -> usize
    requires short { (0 < N) × (N ≤ 4) × (from ≤ length s.now) }
    requires listed { (i : ℕ) → begins ((lo, hi) ∷ tails (N - 1)) (drop i s.now) ≡ true → Passed s.now i (i + N) }
    ensures { Passed s.now from result }
{
    let mut i = from;
    // Stays: no plainer: a turn goes on by the N bytes of a character that was seen; chunks of N would be cut before they are seen.
    while row::<N>(s, lo, hi, i) {
        i += N;
    }
    i
}

// Where the character at i, or a run that begins with it, ends; i where none stands there.
#[tactic(auto, using(crate::proofs::BlockLaws::onward_run))]
fn onward(s: &[u8], i: usize) -> usize
    requires { i < length s.now }
    ensures { Passed s.now i result × (result ≡ i → utf8_length (drop i s.now) ≡ 0) }
{
    if s.len() - i < 16 {
        return i + char_length(&s[i..]);
    }
    if s[i] < 128 {
        if 128 <= joined::<4>(s, i) {
            return i + 1;
        }
        let beyond = 128 <= joined::<16>(s, i);
        if beyond {
            return i + 4;
        }
        return blocks_64(s, i + 16);
    }
    let twos = rows::<2>(s, 0xC2, 0xDF, i);
    if i < twos {
        return twos;
    }
    let threes = rows::<3>(s, 0xE1, 0xEC, i);
    if i < threes {
        return threes;
    }
    i + char_length(&s[i..])
}

// The length of the longest well-formed part of s from its start.
#[tactic(auto, using(crate::proofs::BlockLaws::lengths))]
pub fn utf8_length(s: &[u8]) -> usize
    ensures { (result ≡ utf8_length s.now) × (result ≤ length s.now) }
{
    let mut i = 0;
    // Stays: no plainer: a turn goes on behind a run, as long as `onward` finds it.
    while i < s.len() {
        let next = onward(s, i);
        if next == i {
            return i;
        }
        i = next;
    }
    i
}
