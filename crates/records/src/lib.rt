#![tactic(auto)]

// One line of a text: its kind, its repair, and what it comes to.
ghost use Rattle.std.specs.Prelude.{◌≡◌, ◌≤◌, ℕ, List, length, take};
ghost use Rattle.std.specs.Option.{option_map};
ghost use Rattle.notice.specs.Number.{number_of};
ghost use Rattle.lines.specs.Tokens.{tokens_of};
ghost use Rattle.lines.specs.declared.Kind.TheVariants.{Bar, Data};
ghost use Rattle.spines.specs.Cells.{row_of};
ghost use Rattle.repair.specs.Repair.{repair_notice, repaired};
ghost use Rattle.reading.specs.State.{goes};
ghost use Rattle.reading.specs.declared.Part.{Part};
ghost use Rattle.reading.specs.Notices.{placed};
ghost use Rattle.reading.specs.Bars.{read_bar};
ghost use Rattle.reading.specs.Notes.{read_data};
ghost use Rattle.reading.specs.Records.{notice_repair, is_record, by_kind, on_row, on_record, read_line};
ghost use Rattle.state.specs.Ready.{Few, FewFlow};
ghost use Rattle.state.specs.View.{state_of, landed, told, told_row, told_flow};
ghost use Rattle.state.specs.Counts.{Same};
ghost use Rattle.records.specs.Here.{Under, Evenly};

use lines::Kind;
use notice::Code;
use place::TextLine;
use reading::Part;
use refusal::Refusal;
use repair::{Repair, Unrepaired};
use sheet::Span;
use state::{Flow, Tally};
use voices::Rows;

// The notice that says of a repair.
fn repair_notice(repair: Repair) -> Option<Code>
    ensures { option_map number_of result ≡ repair_notice repair }
{
    match repair {
        Repair::Whole => None,
        Repair::Cut => Some(Code::TrailingEmptyField),
        Repair::Stars => Some(Code::MissingNullInterpretation),
        Repair::Bars => Some(Code::MissingBarlineField),
    }
}

// A whole line in the text.
fn span_of(line: TextLine<'_>) -> Span
    ensures { result ≡ record { at = line.entry.offset; len = length line.entry.bytes.now } }
{
    Span {
        at: line.offset,
        len: line.bytes.len() as u32,
    }
}

// Notices 4, 5 and 6 have the line.
fn notice_repair(repair: Repair, line: TextLine<'_>, tally: Tally, out: &mut [u8]) -> Tally
    ensures told { (cells : List ℕ) (parts : List Part) → told (Ok result) cells parts out.new ≡ landed (goes (notice_repair repair line.entry.number line.entry.offset line.entry.bytes.now (state_of cells parts tally))) out.old tally.at }
    ensures same { Same tally result }
{
    match repair_notice(repair) {
        None => tally,
        Some(what) => writing::notify(out, tally, u8::from(what), line.number, 0, span_of(line)),
    }
}

// Whether a line of some kind is a record: neither empty nor begun by `!`.
pub fn is_record(kind: Kind) -> bool
    ensures { result ≡ is_record kind }
{
    matches!(kind, Kind::Star | Kind::Bar | Kind::Data)
}

// A barline record under the first cells of the row.
// Stays: `Under` ties a row behind a reference to counts by value, and `Evenly` a line to them, so no type of one of them says it.
fn bar_of(
    line: TextLine<'_>,
    rows: &Rows,
    parts: &mut [Part; 256],
    tally: Tally,
    out: &mut [u8],
) -> Tally
    requires under { Under rows.now.row tally }
    requires even { Evenly tally.active line.bytes.now }
    requires bar { line.kind ≡ Bar }
    ensures told { told_row (Ok result) rows.now.row parts.new out.new ≡ landed (goes (read_bar (placed line.entry.offset (repaired tally.active (tokens_of line.entry.bytes.now))) (state_of (take tally.active rows.now.row) parts.old tally))) out.old tally.at }
    ensures few { result.parts ≤ 256 }
{
    let active = tally.active;
    let closed = bars::read_bar(line.bytes, &rows.row[..active], parts, tally, out);
    Tally { active, ..closed }
}

// A data record under the first cells of the row.
fn data_of(
    line: TextLine<'_>,
    rows: &Rows,
    parts: &mut [Part; 256],
    tally: Tally,
    out: &mut [u8],
) -> Result<Tally, Refusal>
    requires under { Under rows.now.row tally }
    requires even { Evenly tally.active line.bytes.now }
    requires data_kind { line.kind ≡ Data }
    ensures told { told_row result rows.now.row parts.new out.new ≡ landed (read_data line.entry.number (placed line.entry.offset (repaired tally.active (tokens_of line.entry.bytes.now))) (state_of (take tally.active rows.now.row) parts.old tally)) out.old tally.at }
    ensures few { Few result }
{
    let active = tally.active;
    data::read_data(line, &rows.row[..active], parts, tally, out)
}

// A record behind the header that passed questions 6 and 7.
fn read_even(
    line: TextLine<'_>,
    rows: &mut Rows,
    parts: &mut [Part; 256],
    tally: Tally,
    out: &mut [u8],
) -> Result<Tally, Refusal>
    requires under { Under rows.old.row tally }
    requires even { Evenly tally.active line.bytes.now }
    ensures told { told_row result rows.new.row parts.new out.new ≡ landed (by_kind line.entry.kind line.entry.number (placed line.entry.offset (repaired tally.active (tokens_of line.entry.bytes.now))) (state_of (take tally.active rows.old.row) parts.old tally)) out.old tally.at }
    ensures few { Few result }
{
    match line.kind {
        Kind::Star => stars::read_star(line, rows, parts, tally, out),
        Kind::Bar => Ok(bar_of(line, rows, parts, tally, out)),
        Kind::Data => data_of(line, rows, parts, tally, out),
        Kind::Empty | Kind::Reference | Kind::Comment => Ok(tally),
    }
}

// A record behind the header.
fn read_record(
    line: TextLine<'_>,
    rows: &mut Rows,
    parts: &mut [Part; 256],
    tally: Tally,
    out: &mut [u8],
) -> Result<Flow, Refusal>
    requires { Under rows.old.row tally }
    ensures told { told_flow result rows.new.row parts.new out.new ≡ landed (on_row (row_of (take tally.active rows.old.row)) line.entry.number line.entry.offset line.entry.bytes.now (state_of (take tally.active rows.old.row) parts.old tally)) out.old tally.at }
    ensures few { FewFlow result }
{
    if tally.active == 0 {
        let noticed = writing::notify(
            out,
            tally,
            u8::from(Code::UnsupportedSegment),
            line.number,
            0,
            span_of(line),
        );
        return Ok(Flow::Ends(noticed));
    }
    match repair::repair_record(line.bytes, tally.active) {
        Err(stop) => match stop {
            Unrepaired::Uneven(columns) => Err(Refusal::Uneven {
                line: line.number,
                columns,
            }),
            Unrepaired::Mixed => Err(Refusal::Mixed { line: line.number }),
        },
        Ok(repair) => {
            let noticed = notice_repair(repair, line, tally, out);
            let read = read_even(line, rows, parts, noticed, out)?;
            Ok(Flow::Goes(read))
        }
    }
}

// The header, or a record behind it.
fn on_record(
    begun: bool,
    line: TextLine<'_>,
    rows: &mut Rows,
    parts: &mut [Part; 256],
    tally: Tally,
    out: &mut [u8],
) -> Result<Flow, Refusal>
    requires { Under rows.old.row tally }
    ensures told { told_flow result rows.new.row parts.new out.new ≡ landed (on_record begun line.entry.number line.entry.offset line.entry.bytes.now (state_of (take tally.active rows.old.row) parts.old tally)) out.old tally.at }
    ensures few { FewFlow result }
{
    if begun {
        return read_record(line, rows, parts, tally, out);
    }
    let read = header::read_header(line, &mut rows.row, parts, tally, out)?;
    Ok(Flow::Goes(read))
}

// A line of a text, read behind the header or before it.
pub fn read_line(
    begun: bool,
    line: TextLine<'_>,
    rows: &mut Rows,
    parts: &mut [Part; 256],
    tally: Tally,
    out: &mut [u8],
) -> Result<Flow, Refusal>
    requires { Under rows.old.row tally }
    ensures told { told_flow result rows.new.row parts.new out.new ≡ landed (read_line begun line.entry.number line.entry.offset line.entry.bytes.now (state_of (take tally.active rows.old.row) parts.old tally)) out.old tally.at }
    ensures few { FewFlow result }
{
    match line.kind {
        Kind::Empty | Kind::Comment => Ok(Flow::Goes(tally)),
        Kind::Reference => {
            let active = tally.active;
            let set = header::read_reference(line, tally, out);
            Ok(Flow::Goes(Tally { active, ..set }))
        }
        Kind::Star | Kind::Bar | Kind::Data => on_record(begun, line, rows, parts, tally, out),
    }
}
