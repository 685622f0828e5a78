#![tactic(auto)]

// Reads a text of Humdrum **kern into a sheet in a lent buffer: once to measure, and once to write.
ghost use Rattle.std.specs.Prelude.{◌≡◌, ℕ, ◌+◌, ◌≤◌, ◌<◌, ◌^◌, false, List, length};
ghost use Rattle.utf8.specs.Utf8.{utf8_length};
ghost use Rattle.lines.specs.Lines.{lines_of};
ghost use Rattle.refusal.specs.declared.Refusal.TheVariants.{ShortBuffer};
ghost use Rattle.reading.specs.State.{start};
ghost use Rattle.reading.specs.Text.{answer_of, buffer_of};
ghost use Rattle.state.specs.View.{state_of};
ghost use Rattle.account.specs.Reached.{Question8, Question17};
ghost use Rattle.demand.specs.Played.{Played};
ghost use Rattle.reader.specs.Answer.{numbers_of};
ghost use Rattle.reader.specs.Landing.{is_passed, finish_at, lines_at};
ghost use Rattle.reader.specs.Told.{finished_by, Tells, no_tally};
ghost use Rattle.reader.specs.Measured.{Measured};

use lines::Kind;
pub use place::line_of;
use place::{Place, Text};
use reading::Part;
use refusal::Refusal;
use sheet::{Head, Span};
use state::{Flow, Tally};
use voices::Rows;

// How long a text may be.
const MOST_BYTES: usize = 67_108_864;

// What the reading of a text writes: the counts of parts and notes, and the length of the records.
#[derive(Clone, Copy, Debug, PartialEq, Eq)]
struct Written {
    parts: usize,
    notes: u32,
    at: usize,
}

// The counts before the first line.
fn no_tally() -> Tally
    ensures { result ≡ no_tally }
{
    Tally {
        active: 0,
        parts: 0,
        bars: 0,
        notes: 0,
        notices: 0,
        tempo: 0,
        title: Span { at: 0, len: 0 },
        composer: Span { at: 0, len: 0 },
        lyricist: Span { at: 0, len: 0 },
        at: 0,
    }
}

// The end of the text: questions 11 and 12, the last closing, the parts and the end.
fn finish_text(
    begun: bool,
    parts: &mut [Part; 256],
    tally: Tally,
    out: &mut [u8],
) -> Result<Written, Refusal>
    requires { (tally.parts ≤ 256) × (tally.bars ≤ 100000) }
    ensures { (cells : List ℕ) → finished_by result out.new ≡ finish_at begun (state_of cells parts.old tally) tally.at out.old }
{
    if !begun {
        return Err(Refusal::NoHeader);
    }
    if tally.notes == 0 {
        return Err(Refusal::NoNote);
    }
    let at = bars::finish(parts, tally, out);
    Ok(Written {
        parts: tally.parts,
        notes: tally.notes,
        at,
    })
}

// Whether a line of some kind does nothing: an empty line, and a `!` line that is no reference.
fn is_passed(kind: Kind) -> bool
    ensures { result ≡ is_passed kind }
{
    matches!(kind, Kind::Empty | Kind::Comment)
}

// The lines of a text, one after another, under rows and parts that are lent.
fn read_lines(
    text: Text<'_>,
    rows: &mut Rows,
    parts: &mut [Part; 256],
    out: &mut [u8],
) -> Result<Written, Refusal>
    ensures { finished_by result out.new ≡ lines_at false 0 0 (lines_of text.entry.bytes.now) start 0 out.old }
{
    let mut tally = no_tally();
    let mut begun = false;
    let mut place = Place { at: 0, line: 0 };
    while let Some(line) = place.take_line(text) {
        if is_passed(line.kind) {
            continue;
        }
        match records::read_line(begun, line, rows, parts, tally, out)? {
            Flow::Ends(last) => return finish_text(true, parts, last, out),
            Flow::Goes(next) => tally = next,
        }
        begun |= records::is_record(line.kind);
    }
    finish_text(begun, parts, tally, out)
}

// One reading of a text, its records written from the start of a buffer on, each where it fits.
fn run(text: Text<'_>, out: &mut [u8]) -> Result<Written, Refusal>
    ensures { finished_by result out.new ≡ lines_at false 0 0 (lines_of text.entry.bytes.now) start 0 out.old }
{
    let mut rows = Rows::empty();
    let mut parts = [state::fresh_part(0); 256];
    read_lines(text, &mut rows, &mut parts, out)
}

// The first reading of a text, which measures: its records are written nowhere.
fn measure(text: Text<'_>) -> Result<Written, Refusal>
    requires { utf8_length text.bytes.now ≡ length text.bytes.now }
    ensures { Tells result text.entry.bytes.now }
{
    let mut nowhere = [0u8; 1];
    run(text, &mut nowhere)
}

// The sheet of a text that was measured: the second reading writes behind the head.
fn write_sheet(text: Text<'_>, out: &mut [u8], written: Written)
    requires utf8 { utf8_length text.bytes.now ≡ length text.bytes.now }
    requires measured { Measured text.bytes.now written.parts written.notes written.at }
    requires room { 16 + written.at ≤ length out.old }
    ensures { out.new ≡ buffer_of text.entry.bytes.now out.old }
{
    // it comes to what the first reading came to
    let _ = run(text, &mut out[16..]);
    let head = Head {
        parts: written.parts as u16,
        length: (16 + written.at) as u32,
        notes: written.notes,
    };
    sheet::put(out, head);
}

// Reads a text into a lent buffer. The sheet's length, or why the text is refused; the buffer is unchanged after a refusal, and holds the sheet
// first and its old bytes behind after an acceptance.
pub fn read(text: &[u8], out: &mut [u8]) -> Result<usize, Refusal>
    ensures answer { numbers_of result ≡ answer_of text.now out.old }
    ensures buffer { out.new ≡ buffer_of text.now out.old }
    ensures fits { (n : ℕ) → result ≡ Ok n → n ≤ length out.old }
    ensures played { (n : ℕ) → result ≡ Ok n → Played text.now out.new }
    ensures needed { (f : ℕ) → result ≡ Err (ShortBuffer f) → f < 2 ^ 32 }
    ensures stopped { Question8 text.now (numbers_of result) }
    ensures joined { Question17 text.now (numbers_of result) }
{
    if text.len() > MOST_BYTES {
        return Err(Refusal::TooLong { length: text.len() });
    }
    let good = utf8::utf8_length(text);
    if good < text.len() {
        return Err(Refusal::NotUtf8 { offset: good });
    }
    let text = Text { bytes: text };
    let written = measure(text)?;
    let needed = 16 + written.at;
    if out.len() < needed {
        return Err(Refusal::ShortBuffer { needed });
    }
    write_sheet(text, out, written);
    Ok(needed)
}
