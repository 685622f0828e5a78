#![tactic(auto)]

// One pass over a token, and what becomes of it.
pub mod outcome;

ghost use Rattle.std.specs.Prelude.{◌≡◌, true, cond, ◌||◌, ◌+◌, ◌≤◌, ◌<◌, eqb, ltb, length, get_or, [], ◌∷◌, MatchOption};
ghost use Rattle.notation.specs.Bytes.{contains};
ghost use Rattle.pitch.specs.Pitch.{pitch_of};
ghost use Rattle.token.specs.Token.{passed, fits, signs, known, passes, is_unknown, grace_by, articulation};
ghost use Rattle.token.specs.Scan.{scan_of};
ghost use Rattle.scan.specs.Steps.{Unknowns, step_lengths, or_given, dots_by, inside_first, ended_first, step_first, step_sounds, step_marks, with_unknown, no_first, no_marks, collected};

use duration::Value;
use items::Item;
use token::scan::{Before, Given, Scan};

// Whether a sub-token that isn't empty stands further left; whether this one has an item, and what length stands before in it; whether one was bad.
#[derive(Clone, Copy, PartialEq, Eq, Debug)]
pub struct Lengths {
    pub later: bool,
    pub begun: bool,
    pub before: Before,
    pub bad: bool,
}

// What the first sub-token says so far.
#[derive(Clone, Copy, PartialEq, Eq, Debug)]
pub struct First {
    pub begun: bool,
    pub over: bool,
    pub given: Given,
    pub dots: u8,
    pub rest: bool,
}

// Whether the sub-token has a pitch; how many pitches and signifiers there were.
#[derive(Clone, Copy, PartialEq, Eq, Debug)]
pub struct Sounds {
    pub sounding: bool,
    pub pitches: usize,
    pub signifiers: usize,
}

// What the single bytes say so far.
#[derive(Clone, Copy, PartialEq, Eq, Debug)]
pub struct Marks {
    pub ties: bool,
    pub tied: bool,
    pub slurs: bool,
    pub slurred: bool,
    pub grace: u8,
    pub articulations: usize,
}

// What stands before once another item stands between.
fn passed(before: Before) -> Before
    ensures { result ≡ passed before }
{
    match before {
        Before::Right => Before::Further,
        _ => before,
    }
}

// One item more for the lengths: a second length is bad, a ratio behind the first sub-token, and a `%` right behind digits or behind a ratio.
#[tactic(auto, using(std::proofs::lemmas::Bool::Decides::nat_tests))]
fn step_lengths(l: Lengths, item: Item) -> Lengths
    ensures { result ≡ step_lengths l item }
{
    match item {
        Item::Digits(_) => Lengths {
            begun: true,
            before: Before::Right,
            bad: l.bad || l.before != Before::Nothing,
            ..l
        },
        Item::Ratio(_) => Lengths {
            begun: true,
            before: Before::Ratio,
            bad: l.bad || l.before != Before::Nothing || l.later,
            ..l
        },
        Item::Letters { .. } => Lengths {
            begun: true,
            before: passed(l.before),
            ..l
        },
        Item::Blank => Lengths {
            later: l.later || l.begun,
            begun: false,
            before: Before::Nothing,
            ..l
        },
        Item::Mark(b) => Lengths {
            begun: true,
            before: passed(l.before),
            bad: l.bad || (b == b'%' && matches!(l.before, Before::Right | Before::Ratio)),
            ..l
        },
    }
}

// The first digits stay.
fn or_given(given: Given, v: Option<Value>) -> Given
    ensures { result ≡ or_given given v }
{
    match (given, v) {
        (Given::Nothing, Some(value)) => Given::Length(value),
        (Given::Nothing, None) => Given::NoValue,
        _ => given,
    }
}

// The dots after one byte more, at most 3.
#[tactic(auto, using(std::proofs::lemmas::Bool::Decides::nat_tests), unfolding(crate::specs::Steps::dots_by))]
fn dots_by(dots: u8, b: u8) -> u8
    ensures { result ≡ dots_by dots b }
{
    if b == b'.' && dots < 3 {
        dots + 1
    } else {
        dots
    }
}

// One item more for the first sub-token, which the first blank behind it ends.
#[tactic(auto, using(std::proofs::lemmas::Bool::Decides::nat_tests))]
fn step_first(f: First, item: Item) -> First
    ensures { result ≡ step_first f item }
{
    match item {
        Item::Blank => First { over: f.begun, ..f },
        _ if f.over => f,
        Item::Digits(v) | Item::Ratio(v) => First {
            begun: true,
            given: or_given(f.given, v),
            ..f
        },
        Item::Letters { .. } => First { begun: true, ..f },
        Item::Mark(b) => First {
            begun: true,
            dots: dots_by(f.dots, b),
            rest: f.rest || b == b'r',
            ..f
        },
    }
}

// Whether a run of a letter is the pitch of its sub-token.
pub fn fits(sounding: bool, letter: u8, count: usize) -> bool
    ensures { result ≡ fits sounding (pitch_of letter count) }
{
    !sounding && pitch::pitch_of(letter, count).is_some()
}

// Whether a mark has a meaning. Inlined: a chorale takes two instructions a byte more where it is a call.
#[inline(always)]
#[tactic(auto, using(std::proofs::lemmas::Bool::Decides::nat_tests), unfolding(notation::specs::Bytes::contains))]
fn known(b: u8) -> bool
    ensures { result ≡ contains b known }
{
    matches!(
        b,
        b'.' | b'r'
            | b'['
            | b']'
            | b'_'
            | b'('
            | b')'
            | b'L'
            | b'J'
            | b'q'
            | b'Q'
            | b'\''
            | b'^'
            | b'~'
            | b';'
            | b'T'
            | b't'
    )
}

// Whether a byte is a sign.
#[tactic(auto, using(std::proofs::lemmas::Bool::Decides::nat_tests), unfolding(notation::specs::Bytes::contains))]
pub fn is_sign(b: u8) -> bool
    ensures { result ≡ contains b signs }
{
    matches!(b, b'#' | b'-' | b'n')
}

// The unknown marks, a bit each: those below 64, and those from 64 to 127.
const LOW_UNKNOWN: u64 = 0xF4009C56FFFFFFFF;

const HIGH_UNKNOWN: u64 = 0xBFE9BF0117EDEB01;

// Whether a byte is an unknown mark.
// Stays: by masks and no `matches!`: a token of unknown letters takes 66 instructions a byte, and 142 by tests of what a known byte is.
pub fn is_unknown(b: u8) -> bool
    ensures { result ≡ is_unknown b }
{
    if b < 64 {
        return (LOW_UNKNOWN >> b) & 1 == 1;
    }
    if b < 128 {
        return (HIGH_UNKNOWN >> (b - 64)) & 1 == 1;
    }
    true
}

// The end of the unknown marks that begin at an index. A call: its loop has no register to spare where it is inlined.
#[inline(never)]
pub fn unknown_end(token: &[u8], from: usize) -> usize
    requires { (from < length token.now) × (is_unknown (get_or token.now from 0) ≡ true) }
    ensures { Unknowns token.now from result }
{
    items::end_of(token, from + 1, |b| is_unknown(b))
}

// Whether a mark is imported.
#[tactic(auto, unfolding(token::specs::Token::passes))]
pub fn passes(sounding: bool, b: u8) -> bool
    ensures { result ≡ passes sounding b }
{
    if is_sign(b) { sounding } else { known(b) }
}

// Some signifiers more.
fn with_unknown(s: Sounds, n: usize) -> Sounds
    requires { s.signifiers + n ≤ 18446744073709551615 }
    ensures { result ≡ with_unknown s n }
{
    Sounds {
        signifiers: s.signifiers + n,
        ..s
    }
}

// One item more for the pitches and signifiers.
fn step_sounds(s: Sounds, item: Item) -> Sounds
    requires { (s.pitches < 18446744073709551615) × (s.signifiers < 18446744073709551615) }
    ensures { result ≡ step_sounds s item }
{
    match item {
        // Stays: field by field, and not `s`, whose padding a copy carries through memory: one chord took half as long again with it.
        Item::Digits(_) | Item::Ratio(_) => Sounds { ..s },
        Item::Letters { letter, count } if fits(s.sounding, letter, count) => Sounds {
            sounding: true,
            pitches: s.pitches + 1,
            ..s
        },
        Item::Blank => Sounds {
            sounding: false,
            ..s
        },
        Item::Mark(b) if passes(s.sounding, b) => Sounds { ..s },
        Item::Letters { .. } | Item::Mark(_) => with_unknown(s, 1),
    }
}

// The grace after one byte more: 1 for Q, 2 for q.
#[tactic(auto, using(std::proofs::lemmas::Bool::Decides::nat_tests), unfolding(token::specs::Token::grace_by))]
fn grace_by(grace: u8, b: u8) -> u8
    ensures { result ≡ grace_by grace b }
{
    match b {
        b'q' => 2,
        b'Q' => 1,
        _ => grace,
    }
}

// The number of an articulation; None for any other byte.
#[tactic(auto, using(std::proofs::lemmas::Bool::Decides::nat_tests), unfolding(token::specs::Token::articulation))]
pub fn articulation(b: u8) -> Option<u8>
    ensures { MatchOption result (articulation b ≡ 5) (λ a. (a ≡ articulation b) × (a < 5)) }
{
    match b {
        b'\'' => Some(0),
        b'^' => Some(1),
        b'~' => Some(2),
        b';' => Some(3),
        b'T' | b't' => Some(4),
        _ => None,
    }
}

// One item more for the single bytes.
#[tactic(auto, using(std::proofs::lemmas::Bool::Decides::nat_tests), unfolding(notation::specs::Bytes::contains))]
fn step_marks(m: Marks, item: Item) -> Marks
    requires { m.articulations < 18446744073709551615 }
    ensures { result ≡ step_marks m item }
{
    match item {
        Item::Mark(b) => Marks {
            ties: m.ties || matches!(b, b'[' | b'_'),
            tied: m.tied || matches!(b, b']' | b'_'),
            slurs: m.slurs || b == b'(',
            slurred: m.slurred || b == b')',
            grace: grace_by(m.grace, b),
            articulations: m.articulations + usize::from(articulation(b).is_some()),
        },
        _ => m,
    }
}

// What a token says, in one pass over its items.
#[tactic(auto, using(items::proofs::NextLaws::end_on))]
pub fn scan_token(token: &[u8]) -> Scan
    ensures { result ≡ scan_of token.now }
{
    let mut lengths = Lengths {
        later: false,
        begun: false,
        before: Before::Nothing,
        bad: false,
    };
    let mut first = First {
        begun: false,
        over: false,
        given: Given::Nothing,
        dots: 0,
        rest: false,
    };
    let mut sounds = Sounds {
        sounding: false,
        pitches: 0,
        signifiers: 0,
    };
    let mut marks = Marks {
        ties: false,
        tied: false,
        slurs: false,
        slurred: false,
        grace: 0,
        articulations: 0,
    };
    let mut i = 0;
    // Stays: no plainer: a turn goes on behind a run, whose end a search finds; an iterator over runs would tell their kinds twice.
    while i < token.len() {
        let b = token[i];
        if items::is_digit(b) {
            let next = items::length_at(token, i);
            lengths = step_lengths(lengths, next.item);
            first = step_first(first, next.item);
            i = next.end;
            continue;
        }
        if items::is_letter(b) {
            let end = items::letter_end(token, i);
            let item = Item::Letters {
                letter: b,
                count: end - i,
            };
            lengths = step_lengths(lengths, item);
            first = step_first(first, item);
            sounds = step_sounds(sounds, item);
            i = end;
            continue;
        }
        if b == b' ' {
            lengths = step_lengths(lengths, Item::Blank);
            first = step_first(first, Item::Blank);
            sounds = step_sounds(sounds, Item::Blank);
            i += 1;
            continue;
        }
        let item = Item::Mark(b);
        if is_unknown(b) {
            let end = unknown_end(token, i);
            lengths = step_lengths(lengths, item);
            first = step_first(first, item);
            sounds = with_unknown(sounds, end - i);
            i = end;
            continue;
        }
        lengths = step_lengths(lengths, item);
        first = step_first(first, item);
        sounds = step_sounds(sounds, item);
        marks = step_marks(marks, item);
        i += 1;
    }
    collect(lengths, first, sounds, marks)
}

// The scan of what was collected.
fn collect(l: Lengths, f: First, s: Sounds, m: Marks) -> Scan
    ensures { result ≡ collected l f s m }
{
    Scan {
        bad: l.bad,
        silent: !f.begun,
        given: f.given,
        dots: f.dots,
        rest: f.rest,
        pitches: s.pitches,
        signifiers: s.signifiers,
        ties: m.ties,
        tied: m.tied,
        slurs: m.slurs,
        slurred: m.slurred,
        grace: m.grace,
        articulations: m.articulations,
    }
}
