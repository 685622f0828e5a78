#![tactic(auto)]

// Why a text is refused: the question that it fails, with the line and the figure that the question names.
ghost use Rattle.std.specs.Prelude.{◌≡◌, ◌<◌, Some};
ghost use Rattle.refusal.specs.Numbers.{number_of, line_of, figure_of, text_of};

use std::error::Error;
use std::fmt;

#[derive(Clone, Copy, PartialEq, Eq, Debug)]
pub enum Refusal {
    // 1: more bytes than a text may have
    TooLong { length: usize },
    // 2: no UTF-8 from some byte on
    NotUtf8 { offset: usize },
    // 3: a column of the header that isn't exclusive
    NotExclusive { line: u32 },
    // 4: more columns in the header than a row may have
    ManyColumns { line: u32, columns: usize },
    // 5: no column of the header is kern
    NoKern { line: u32 },
    // 6: another number of columns than the row has
    Uneven { line: u32, columns: usize },
    // 7: stars or barlines beside other tokens
    Mixed { line: u32 },
    // 8: a part that has no voice left for a branch
    StaffFull { line: u32, part: usize },
    // 9: more spines in the next row than a row may have
    ManySpines { line: u32, spines: usize },
    // 10: more notes than a text may have
    ManyNotes { line: u32 },
    // 11: no header
    NoHeader,
    // 12: no note
    NoNote,
    // 13: a lent buffer that is shorter than the sheet
    ShortBuffer { needed: usize },
    // 17: a join of lines of two parts, or of kern and another kind
    MixedJoin { line: u32, column: usize },
}

impl Refusal {
    // The question's number.
    pub fn number(self) -> u32
        ensures same { result ≡ number_of self }
        ensures some { 0 < result }
    {
        match self {
            Refusal::TooLong { .. } => 1,
            Refusal::NotUtf8 { .. } => 2,
            Refusal::NotExclusive { .. } => 3,
            Refusal::ManyColumns { .. } => 4,
            Refusal::NoKern { .. } => 5,
            Refusal::Uneven { .. } => 6,
            Refusal::Mixed { .. } => 7,
            Refusal::StaffFull { .. } => 8,
            Refusal::ManySpines { .. } => 9,
            Refusal::ManyNotes { .. } => 10,
            Refusal::NoHeader => 11,
            Refusal::NoNote => 12,
            Refusal::ShortBuffer { .. } => 13,
            Refusal::MixedJoin { .. } => 17,
        }
    }

    // The number of the line that it names; 0 for a refusal of the whole text.
    // Stays: 0 and not an Option, as the C interface's answer and what a program prints have it.
    pub fn line(self) -> u32
        ensures { result ≡ line_of self }
    {
        match self {
            Refusal::TooLong { .. }
            | Refusal::NotUtf8 { .. }
            | Refusal::NoHeader
            | Refusal::NoNote
            | Refusal::ShortBuffer { .. } => 0,
            Refusal::NotExclusive { line }
            | Refusal::ManyColumns { line, .. }
            | Refusal::NoKern { line }
            | Refusal::Uneven { line, .. }
            | Refusal::Mixed { line }
            | Refusal::StaffFull { line, .. }
            | Refusal::ManySpines { line, .. }
            | Refusal::ManyNotes { line }
            | Refusal::MixedJoin { line, .. } => line,
        }
    }

    // What the question counts or names; 0 where it has no figure.
    // Stays: 0 and not an Option, likewise.
    pub fn figure(self) -> usize
        ensures { result ≡ figure_of self }
    {
        match self {
            Refusal::TooLong { length } => length,
            Refusal::NotUtf8 { offset } => offset,
            Refusal::ManyColumns { columns, .. } => columns,
            Refusal::Uneven { columns, .. } => columns,
            Refusal::StaffFull { part, .. } => part,
            Refusal::ManySpines { spines, .. } => spines,
            Refusal::ShortBuffer { needed } => needed,
            Refusal::MixedJoin { column, .. } => column,
            Refusal::NotExclusive { .. }
            | Refusal::NoKern { .. }
            | Refusal::Mixed { .. }
            | Refusal::ManyNotes { .. }
            | Refusal::NoHeader
            | Refusal::NoNote => 0,
        }
    }
}

// Number, line and figure.
impl fmt::Display for Refusal {
    ghost output = { λ r. Some (text_of r) };

    fn fmt<W: fmt::Write>(&self, f: &mut fmt::Formatter<W>) -> fmt::Result {
        write!(f, "{} {} {}", self.number(), self.line(), self.figure())
    }
}

impl Error for Refusal {}
