#![tactic(auto)]

// What is known between two lines of a text: cells for the row, what is known of each part, and the counts beside them.
ghost use Rattle.std.specs.Prelude.{◌≡◌};
ghost use Rattle.reading.specs.State.{blank_bar, fresh_part};
ghost use Rattle.state.specs.Lay.{past};

use reading::Part;
use sheet::{Bar, Span};

// Active spines and parts, bars closed, notes and kept notices, the first tempo, what the references set, and where the next record goes.
// Stays: a ghost field for at most 256 parts and 100,000 bars would take `..tally` from the functions that change one count.
// Stays: parts, counts and buffer are lent apart; in one struct, each function that leaves the parts alone would have to say so.
#[derive(Clone, Copy, PartialEq, Eq, Debug)]
pub struct Tally {
    pub active: usize,
    pub parts: usize,
    pub bars: u32,
    pub notes: u32,
    pub notices: u32,
    pub tempo: u16,
    pub title: Span,
    pub composer: Span,
    pub lyricist: Span,
    pub at: usize,
}

// What becomes of the reading behind a line that is not refused: it goes on, or ends, with these counts.
// Stays: `ControlFlow<Tally, Tally>` is the same two cases, by names that say less.
#[derive(Clone, Copy, PartialEq, Eq, Debug)]
pub enum Flow {
    Goes(Tally),
    Ends(Tally),
}

// The place n bytes behind another.
pub fn past(at: usize, n: usize) -> usize
    ensures { result ≡ past at n }
{
    std::num::wrapping_add_usize(at, n)
}

// A bar of part p with all unset.
pub fn blank_bar(p: u8) -> Bar
    ensures { result ≡ blank_bar p }
{
    Bar {
        part: p,
        right: 0,
        left: 0,
        number: 0,
        clef: 0,
        numerator: 0,
        denominator: 0,
        symbol: 0,
        key: 0,
        fifths: 0,
        mode: 0,
        tempo: 0,
    }
}

// Part p, when nothing is known of it.
pub fn fresh_part(p: u8) -> Part
    ensures { result ≡ fresh_part p }
{
    Part {
        named: 0,
        name: Span { at: 0, len: 0 },
        short: Span { at: 0, len: 0 },
        mode: 0,
        beams: [false; 4],
        noted: false,
        current: blank_bar(p),
        first: blank_bar(p),
    }
}
