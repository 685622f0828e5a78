#![tactic(auto)]

// Tokens of the usual shape, read at one go: a null token; or opening marks, digits, dots, a pitch with its signs or a rest, and marks.
ghost use Rattle.std.specs.Prelude.{◌≡◌, true, false, ◌≤◌, [], ◌∷◌, length, IfSome};
ghost use Rattle.notation.specs.Bytes.{contains};
ghost use Rattle.plain.specs.Plain.{ShapeAt};
ghost use Rattle.plain.specs.Usual.{unknown_bytes, Run, opened, said_of, Marking, Numbering, Signing, SungAt, Parts, note_from, Closed, Tail};

use duration::Value;
use pitch::Pitch;
use token::outcome::Note;
use token::pitches::Tone;

// A note of one pitch or a rest, whether L and J and unknown marks stand in its token, and where the token ends.
#[derive(Clone, Copy, PartialEq, Eq, Debug)]
pub struct Plain {
    pub note: Note,
    pub tone: Tone,
    pub starts: bool,
    pub ends: bool,
    pub unknown: bool,
    pub end: usize,
}

// A null token that ends at an index, or a note.
#[derive(Clone, Copy, PartialEq, Eq, Debug)]
pub enum Shape {
    Null(usize),
    Note(Plain),
}

// What the opening marks say, and where they end.
#[derive(Clone, Copy)]
struct Opening {
    ties: bool,
    slurs: bool,
    end: usize,
}

// What the marks say, and where they end.
#[derive(Clone, Copy)]
struct Marked {
    ties: bool,
    tied: bool,
    slurs: bool,
    slurred: bool,
    starts: bool,
    ends: bool,
    articulations: usize,
    unknown: bool,
    end: usize,
}

// The number that digits write, and where they end.
#[derive(Clone, Copy)]
struct Reciprocal {
    number: u32,
    end: usize,
}

// A length in parts; 0, 0 is no tuplet.
#[derive(Clone, Copy)]
struct Valued {
    value: u8,
    actual: u8,
    normal: u8,
}

// An alteration, and where its signs end.
#[derive(Clone, Copy)]
struct Signed {
    alter: u8,
    end: usize,
}

// A pitch, or None for a rest, and where it ends.
#[derive(Clone, Copy)]
struct Sung {
    tone: Option<Tone>,
    end: usize,
}

// What stands in place of a rest's pitch.
const SILENT: Tone = Tone {
    step: 0,
    octave: 0,
    alter: 0,
};

// The opening marks from an index on.
// Stays: no plainer: `from ≤ length` is a fact of an index and its line; a slice from there on would answer other indices.
fn openings(line: &[u8], from: usize) -> Opening
    requires { from ≤ length line.now }
    ensures { Marking line.now from (opened false false) (opened result.ties result.slurs) result.end }
{
    let mut opening = Opening {
        ties: false,
        slurs: false,
        end: line.len(),
    };
    for i in from..line.len() {
        match line[i] {
            b'[' => opening.ties = true,
            b'(' => opening.slurs = true,
            _ => return Opening { end: i, ..opening },
        }
    }
    opening
}

// How many marks are read at one go once there are unknown ones among them; more of them are left to the scan, which goes by runs.
const FEW: usize = 64;

// Whether a byte is an unknown mark, and has few marks before it.
fn is_unknown(b: u8, before: usize) -> bool
    ensures { result ≡ true → contains b unknown_bytes ≡ true }
{
    matches!(b, b'!'..=b'~') && before <= FEW && scan::is_unknown(b)
}

// The marks from an index on, behind the opening ones.
fn marks(line: &[u8], from: usize, ties: bool, slurs: bool) -> Marked
    requires { from ≤ length line.now }
    ensures { Marking line.now from (opened ties slurs) (said_of result) result.end }
{
    let mut said = Marked {
        ties,
        tied: false,
        slurs,
        slurred: false,
        starts: false,
        ends: false,
        articulations: 0,
        unknown: false,
        end: line.len(),
    };
    for i in from..line.len() {
        match line[i] {
            b'L' => said.starts = true,
            b'J' => said.ends = true,
            b'[' => said.ties = true,
            b']' => said.tied = true,
            b'_' => {
                said.ties = true;
                said.tied = true;
            }
            b'(' => said.slurs = true,
            b')' => said.slurred = true,
            b if scan::articulation(b).is_some() => said.articulations += 1,
            b if is_unknown(b, i - from) => said.unknown = true,
            _ => return Marked { end: i, ..said },
        }
    }
    said
}

// The digits from an index on; none is read behind a number above 999.
fn reciprocal_at(line: &[u8], from: usize) -> Reciprocal
    requires { from ≤ length line.now }
    ensures { Numbering line.now from result.number result.end }
{
    let mut number = 0;
    for i in from..line.len() {
        match line[i] {
            b @ b'0'..=b'9' if number <= 999 => number = number * 10 + u32::from(b - b'0'),
            _ => return Reciprocal { number, end: i },
        }
    }
    Reciprocal {
        number,
        end: line.len(),
    }
}

// Where the bytes b from an index on end.
fn run_end(line: &[u8], from: usize, b: u8) -> usize
    requires { from ≤ length line.now }
    ensures { Run (b ∷ []) line.now from result }
{
    // Stays: an index, and no `position`, as in `slices::find`.
    for i in from..line.len() {
        if line[i] != b {
            return i;
        }
    }
    line.len()
}

// The signs from an index on.
fn signs(line: &[u8], from: usize) -> Signed
    requires { from ≤ length line.now }
    ensures { Signing line.now from result.alter result.end }
{
    let mut alter = 128;
    for i in from..line.len() {
        let b = line[i];
        if !scan::is_sign(b) {
            return Signed { alter, end: i };
        }
        alter = pitch::altered(alter, b);
    }
    Signed {
        alter,
        end: line.len(),
    }
}

// The pitch that a run of a letter writes.
fn pitch_at(line: &[u8], from: usize, letter: u8) -> Option<Sung>
    requires { from ≤ length line.now }
    ensures { IfSome result (SungAt line.now from) }
{
    let to = run_end(line, from, letter);
    let Pitch { step, octave } = pitch::pitch_of(letter, to - from)?;
    let s = signs(line, to);
    Some(Sung {
        tone: Some(Tone {
            step,
            octave,
            alter: s.alter,
        }),
        end: s.end,
    })
}

// The rest or the pitch at an index.
fn sung_at(line: &[u8], from: usize) -> Option<Sung>
    ensures { IfSome result (SungAt line.now from) }
{
    match *line.get(from)? {
        b'r' => Some(Sung {
            tone: None,
            end: from + 1,
        }),
        letter => pitch_at(line, from, letter),
    }
}

// A length in parts.
fn parts_of(v: Value) -> Valued
    ensures { Parts v result }
{
    match v {
        Value::Plain(value) => Valued {
            value,
            actual: 0,
            normal: 0,
        },
        Value::Tuplet {
            value,
            actual,
            normal,
        } => Valued {
            value,
            actual,
            normal,
        },
    }
}

// Whether a token ends at an index.
fn closes(line: &[u8], end: usize) -> bool
    ensures { result ≡ true → Closed line.now end }
{
    line.get(end).is_none_or(|b| *b == b'\t')
}

// The note of a rest or of one pitch.
fn note_of(v: Valued, dots: u8, rest: bool, m: Marked) -> Note
    ensures { result ≡ note_from v dots rest (said_of m) }
{
    Note {
        value: v.value,
        actual: v.actual,
        normal: v.normal,
        dots,
        inferred: false,
        rest,
        ties: !rest && m.ties,
        tied: !rest && m.tied,
        slurs: m.slurs,
        slurred: m.slurred,
        grace: 0,
        pitches: usize::from(!rest),
        articulations: m.articulations,
    }
}

// The note from its sound on.
fn sounded(line: &[u8], from: usize, opening: Opening, v: Valued, dots: u8) -> Option<Plain>
    ensures { IfSome result (Tail line.now from opening v dots) }
{
    let sung = sung_at(line, from)?;
    let m = marks(line, sung.end, opening.ties, opening.slurs);
    if !closes(line, m.end) {
        return None;
    }
    Some(Plain {
        note: note_of(v, dots, sung.tone.is_none(), m),
        tone: sung.tone.unwrap_or(SILENT),
        starts: m.starts,
        ends: m.ends,
        unknown: m.unknown,
        end: m.end,
    })
}

// The shape of the token that begins at an index, None where it is of no usual one.
pub fn shape_of(line: &[u8], from: usize) -> Option<Shape>
    ensures { IfSome result (ShapeAt line.now from) }
{
    if *line.get(from)? == b'.' {
        return if closes(line, from + 1) {
            Some(Shape::Null(from + 1))
        } else {
            None
        };
    }
    let opening = openings(line, from);
    let digits = opening.end;
    let reciprocal = reciprocal_at(line, digits);
    let to = reciprocal.end;
    if to == digits {
        return None;
    }
    let v = parts_of(duration::value_by(reciprocal.number, to - digits)?);
    let sound = run_end(line, to, b'.');
    if 3 < sound - to {
        return None;
    }
    let plain = sounded(line, sound, opening, v, (sound - to) as u8)?;
    Some(Shape::Note(plain))
}
