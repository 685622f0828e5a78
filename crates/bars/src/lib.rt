#![tactic(auto)]

// Barline records, the end of a text, and the closing of bars.
ghost use Rattle.std.specs.Prelude.{◌≡◌, List, [], ◌∷◌, ◌++◌, map, reverse, ℕ, ◌≤◌, length};
ghost use Rattle.lines.specs.Tokens.{tokens_of};
ghost use Rattle.spines.specs.Cells.{spine_of, row_of};
ghost use Rattle.sheet.specs.Record.{PART};
ghost use Rattle.reading.specs.State.{goes};
ghost use Rattle.reading.specs.Notices.{placed};
ghost use Rattle.reading.specs.Bars.{is_kern_spine, any_noted, closed_bar, closed_part, left_anew, close_with, read_bar};
ghost use Rattle.reading.specs.Text.{part_record, last_closing, last_records};
ghost use Rattle.state.specs.Lay.{laid, behind};
ghost use Rattle.state.specs.View.{state_of, landed, told};
ghost use Rattle.state.specs.Ready.{Ready};
ghost use Rattle.bars.specs.Bars.{filled_bars, deciding_of, bar_record, last_parts, last_bars, last_end};

use paths::Spine;
use reading::Part;
use sheet::{Bar, End};
use state::Tally;

// Whether any of the parts has a note since the last closing.
pub fn any_noted(parts: &[Part]) -> bool
    ensures { result ≡ any_noted parts.now }
{
    parts.iter().any(|part| part.noted)
}

// A bar as it closes: bar 1 is filled in.
fn closed(bar: Bar, right: u8, nth: u32) -> Bar
    ensures { result ≡ closed_bar right nth bar }
{
    let mut closed = Bar {
        right,
        number: nth,
        ..bar
    };
    if nth == 1 {
        closed.key = 1;
        if bar.numerator == 0 {
            closed.numerator = 4;
            closed.denominator = 4;
        }
    }
    closed
}

// Sets the left barline in each part.
fn keep_left(parts: &mut [Part], left: u8)
    ensures { parts.new ≡ map (left_anew left) parts.old }
{
    for part in parts.iter_mut() {
        part.current.left = left;
    }
}

// Whether a cell's spine is kern.
fn is_kern(cell: u16) -> bool
    ensures { result ≡ is_kern_spine (spine_of cell) }
{
    let spine = spines::spine_of(cell);
    spine != Spine::Outside
}

// The token that decides a barline record.
fn deciding<'a>(line: &'a [u8], row: &[u16]) -> &'a [u8]
    ensures { result.now ≡ deciding_of (row_of row.now) (tokens_of line.now) }
{
    if row.is_empty() {
        return &line[..0];
    }
    let first = lines::token_end(line, 0);
    let kern = row
        .iter()
        .zip(line.split(|b| *b == b'\t'))
        .find(|column| is_kern(*column.0));
    match kern {
        Some((_, token)) => token,
        None => &line[..first],
    }
}

// Closes a part's bar, and writes its BAR; the place behind it.
fn close_part(part: &mut Part, right: u8, left: u8, number: u32, out: &mut [u8], at: usize) -> usize
    ensures { (part.new ≡ closed_part right left number part.old) × ((out.new ≡ laid out.old at (bar_record right number part.old ∷ [])) × (result ≡ behind at (bar_record right number part.old ∷ []))) }
{
    let bar = closed(part.current, right, number);
    if number == 1 {
        part.first = bar;
    }
    part.noted = false;
    part.current = Bar {
        left,
        ..state::blank_bar(bar.part)
    };
    writing::write(out, at, bar)
}

// Closes a bar in each part, with their BARs by rising part; the place behind them.
fn close(parts: &mut [Part], right: u8, left: u8, number: u32, out: &mut [u8], at: usize) -> usize
    ensures { (parts.new ≡ map (closed_part right left number) parts.old) × ((out.new ≡ laid out.old at (map (bar_record right number) parts.old)) × (result ≡ behind at (map (bar_record right number) parts.old))) }
{
    let mut k = at;
    for part in parts.iter_mut() {
        k = close_part(part, right, left, number, out, k);
    }
    k
}

// Closes a bar in every part if any has a note, and else keeps a left barline.
fn close_with(parts: &mut [Part; 256], tally: Tally, right: u8, left: u8, out: &mut [u8]) -> Tally
    requires { (tally.parts ≤ 256) × (tally.bars ≤ 100000) }
    ensures told { (cells : List ℕ) → told (Ok result) cells parts.new out.new ≡ landed (goes (close_with right left (state_of cells parts.old tally))) out.old tally.at }
    ensures kept { result.parts ≡ tally.parts }
{
    let parts = &mut parts[..tally.parts];
    if any_noted(parts) {
        let bars = tally.bars + 1;
        let at = close(parts, right, left, bars, out, tally.at);
        return Tally { bars, at, ..tally };
    }
    if left != 0 {
        keep_left(parts, left);
    }
    tally
}

// A barline record: its first kern spine's token decides, else its first.
pub fn read_bar(
    line: &[u8],
    row: &[u16],
    parts: &mut [Part; 256],
    tally: Tally,
    out: &mut [u8],
) -> Tally
    requires { Ready row.now tally }
    ensures told { (offset : ℕ) → told (Ok result) row.now parts.new out.new ≡ landed (goes (read_bar (placed offset (filled_bars (length row.now) (tokens_of line.now))) (state_of row.now parts.old tally))) out.old tally.at }
    ensures kept { result.parts ≡ tally.parts }
{
    let sides = notation::barline::kern_barline(deciding(line, row));
    close_with(
        parts,
        tally,
        u8::from(sides.right),
        u8::from(sides.left),
        out,
    )
}

// The PART of a part.
fn part_of(part: &Part) -> sheet::Part
    ensures { PART result ≡ part_record part.now }
{
    let clef = part.first.clef;
    sheet::Part {
        part: part.current.part,
        named: part.named,
        clef: if clef == 0 { 1 } else { clef },
        name: part.name,
        short: part.short,
    }
}

// The PARTs by falling part; the place behind them.
fn write_parts(parts: &[Part], out: &mut [u8], at: usize) -> usize
    ensures { (out.new ≡ laid out.old at (map part_record (reverse parts.now))) × (result ≡ behind at (map part_record (reverse parts.now))) }
{
    let mut k = at;
    for part in parts.iter().rev() {
        k = writing::write(out, k, part_of(part));
    }
    k
}

// END: meter and key are those of the highest part's bar 1.
fn end_of(parts: &[Part], tally: Tally) -> End
    ensures { result ≡ last_end parts.now tally }
{
    let first = match parts.last() {
        Some(part) => part.first,
        None => state::blank_bar(0),
    };
    End {
        mode: first.mode,
        fifths: first.fifths,
        numerator: first.numerator,
        denominator: first.denominator,
        tempo: tally.tempo,
        title: tally.title,
        composer: tally.composer,
        lyricist: tally.lyricist,
    }
}

// The last closing, both sides Normal; the place behind its BARs.
fn close_last(parts: &mut [Part], tally: Tally, out: &mut [u8]) -> usize
    requires { tally.bars ≤ 100000 }
    ensures { (parts.new ≡ last_parts tally.bars parts.old) × ((out.new ≡ laid out.old tally.at (last_bars tally.bars parts.old)) × (result ≡ behind tally.at (last_bars tally.bars parts.old))) }
{
    if any_noted(parts) {
        return close(parts, 0, 0, tally.bars + 1, out, tally.at);
    }
    tally.at
}

// The end of a text: the last closing, PART by falling part, END; the place behind it.
pub fn finish(parts: &mut [Part; 256], tally: Tally, out: &mut [u8]) -> usize
    requires { (tally.parts ≤ 256) × (tally.bars ≤ 100000) }
    ensures { (cells : List ℕ) → (out.new ≡ laid out.old tally.at ((last_closing (state_of cells parts.old tally)).records ++ last_records (last_closing (state_of cells parts.old tally)).state)) × (result ≡ behind tally.at ((last_closing (state_of cells parts.old tally)).records ++ last_records (last_closing (state_of cells parts.old tally)).state)) }
{
    let parts = &mut parts[..tally.parts];
    let at = close_last(parts, tally, out);
    let at = write_parts(parts, out, at);
    writing::write(out, at, end_of(parts, tally))
}
