#![tactic(auto)]

// Data records: their tokens, column by column.
ghost use Rattle.std.specs.Prelude.{◌≡◌, true, ◌+◌, ◌≤◌, ◌<◌, length, take, drop};
ghost use Rattle.slices.specs.Split.{pieces};
ghost use Rattle.lines.specs.Tokens.{tokens_of};
ghost use Rattle.peers.specs.Peers.{is_bare};
ghost use Rattle.reading.specs.Notices.{placed};
ghost use Rattle.reading.specs.Notes.{read_data};
ghost use Rattle.state.specs.Ready.{Ready};
ghost use Rattle.state.specs.View.{state_of, landed, told};
ghost use Rattle.notes.specs.Spot.{Kept};
ghost use Rattle.data.specs.Column.{column_step, Entered};
ghost use Rattle.data.specs.Agreed.{Agreed, inferred_by};
ghost use Rattle.data.specs.Stretch.{AtOnce, with_stretch, Stretched};

use duration::Value;
use notes::Spot;
use paths::Spine;
use place::TextLine;
use plain::Shape;
use reading::Part;
use refusal::Refusal;
use state::Tally;

// The spot of a token of a part's line, in a column from 0, that begins at an index of the record.
fn spot_of(line: TextLine<'_>, part: usize, voice: usize, index: usize, from: usize) -> Spot
    requires { (index < 512) × (from ≤ length line.bytes.now) }
    ensures { result ≡ record { part = part; voice = voice; line = line.entry.number; column = index + 1; at = line.entry.offset + from } }
{
    Spot {
        part,
        voice,
        line: line.number,
        column: (index + 1) as u16,
        at: line.offset + from as u32,
    }
}

// Where a token stands in its record: its column from 0, and where it begins and ends.
#[derive(Clone, Copy, Debug, PartialEq, Eq)]
struct Column {
    index: usize,
    from: usize,
    end: usize,
}

// The value that a bare token gets; None for any other. The record is asked at its first bare token, and what it gave is kept.
fn infer(
    token: &[u8],
    line: &[u8],
    row: &[u16],
    agreed: &mut Option<Option<Value>>,
) -> Option<Value>
    requires { Agreed line.now row.now agreed.old }
    ensures value { result ≡ inferred_by (is_bare token.now) line.now row.now }
    ensures kept { Agreed line.now row.now agreed.new }
{
    if !peers::is_bare(token) {
        return None;
    }
    *agreed.get_or_insert_with(|| peers::agreed_duration(line, row))
}

// One column: spines outside kern and branches are passed over.
// Stays: `Ready` ties a row to counts that each token changes; a type of both would be made anew at each.
fn read_column(
    line: TextLine<'_>,
    row: &[u16],
    column: Column,
    agreed: &mut Option<Option<Value>>,
    parts: &mut [Part; 256],
    tally: Tally,
    out: &mut [u8],
) -> Result<Tally, Refusal>
    requires ready { Ready row.now tally }
    requires entered { Entered line.bytes.now row.now column }
    requires agreed { Agreed line.bytes.now row.now agreed.old }
    ensures told { told result row.now parts.new out.new ≡ landed (column_step line.entry.number line.entry.offset line.entry.bytes.now row.now column (state_of row.now parts.old tally)) out.old tally.at }
    ensures kept { Kept tally result }
    ensures agreed { Agreed line.entry.bytes.now row.now agreed.new }
{
    let Spine::Line { part, voice } = spines::spine_of(row[column.index]) else {
        return Ok(tally);
    };
    let token = &line.bytes[column.from..column.end];
    let inferred = infer(token, line.bytes, row, agreed);
    let spot = spot_of(line, part, voice, column.index, column.from);
    notes::read_token(token, inferred, spot, parts, tally, out)
}

// ---- columns read at one go

// Where a stretch of columns ends: the next column and where its token begins, the notes so far and the place behind them.
#[derive(Clone, Copy, Debug, PartialEq, Eq)]
struct Stretch {
    from: usize,
    index: usize,
    notes: u32,
    at: usize,
}

// Whether a note of the usual shape is written at once: at most the 100,000th, and with no notice to be kept.
fn at_once(notes: u32, unknown: bool, notices: u32) -> bool
    ensures { result ≡ true → AtOnce notes unknown notices }
{
    notes < 100000 && (!unknown || 1024 <= notices)
}

// The columns from one on whose tokens are null or of the usual shape, or that are no line of a part.
fn read_stretch(
    line: TextLine<'_>,
    row: &[u16],
    parts: &mut [Part; 256],
    tally: Tally,
    begin: usize,
    first: usize,
    out: &mut [u8],
) -> Stretch
    requires ready { Ready row.now tally }
    requires first { first ≤ length row.now }
    requires begin { pieces 9 begin line.bytes.now ≡ drop first (tokens_of line.bytes.now) }
    ensures { Stretched line.entry.bytes.now row.now parts.old out.old tally line.entry.number line.entry.offset begin first parts.new out.new result }
{
    let bytes = line.bytes;
    let mut from = begin;
    let mut index = first;
    let mut notes = tally.notes;
    let mut at = tally.at;
    for &cell in &row[first..] {
        if bytes.len() < from {
            break;
        }
        let Spine::Line { part, voice } = spines::spine_of(cell) else {
            from = lines::token_end(bytes, from) + 1;
            index += 1;
            continue;
        };
        let Some(shape) = plain::shape_of(bytes, from) else {
            break;
        };
        match shape {
            Shape::Null(end) => {
                from = end + 1;
                index += 1;
            }
            Shape::Note(p) => {
                if !at_once(notes, p.unknown, tally.notices) {
                    break;
                }
                let end = p.end;
                let token = &bytes[from..end];
                let spot = spot_of(line, part, voice, index, from);
                at = notes::write_plain(token, p, spot, parts, tally, at, out);
                notes += 1;
                from = end + 1;
                index += 1;
            }
        }
    }
    Stretch {
        from,
        index,
        notes,
        at,
    }
}

// The counts at the end of a stretch.
fn with_stretch(tally: Tally, s: Stretch) -> Tally
    ensures { result ≡ with_stretch tally s }
{
    Tally {
        notes: s.notes,
        at: s.at,
        ..tally
    }
}

// A data record: its tokens in the columns of the row, stretches at one go and any other column by itself.
pub fn read_data(
    line: TextLine<'_>,
    row: &[u16],
    parts: &mut [Part; 256],
    tally: Tally,
    out: &mut [u8],
) -> Result<Tally, Refusal>
    requires { Ready row.now tally }
    ensures told { told result row.now parts.new out.new ≡ landed (read_data line.entry.number (placed line.entry.offset (take (length row.now) (tokens_of line.entry.bytes.now))) (state_of row.now parts.old tally)) out.old tally.at }
    ensures kept { Kept tally result }
{
    let mut t = tally;
    let mut agreed = None;
    let mut from = 0;
    let mut index = 0;
    // Stays: a turn goes on by a stretch of columns and one more, which neither a `for` nor a chain says more plainly.
    loop {
        let s = read_stretch(line, row, parts, t, from, index, out);
        t = with_stretch(t, s);
        if s.index == row.len() || line.bytes.len() < s.from {
            return Ok(t);
        }
        let end = lines::token_end(line.bytes, s.from);
        let column = Column {
            index: s.index,
            from: s.from,
            end,
        };
        t = read_column(line, row, column, &mut agreed, parts, t, out)?;
        from = end + 1;
        index = s.index + 1;
    }
}
