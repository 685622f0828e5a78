#![tactic(auto)]

// Reference records, and the header: the first row and its parts.
ghost use Rattle.std.specs.Prelude.{◌≡◌, Bool, List, map, ℕ, ◌≤◌, ◌<◌, ◌^◌, length, take};
ghost use Rattle.lines.specs.Tokens.{tokens_of, is_kern, is_exclusive};
ghost use Rattle.paths.specs.Text.{header_row};
ghost use Rattle.repair.specs.Repair.{each};
ghost use Rattle.spines.specs.Cells.{row_of};
ghost use Rattle.spines.specs.Table.{active_at, cells_of};
ghost use Rattle.reading.specs.State.{goes};
ghost use Rattle.reading.specs.declared.Part.{Part};
ghost use Rattle.reading.specs.Notices.{placed};
ghost use Rattle.reading.specs.Header.{read_reference, notice_others, fresh_parts, read_header};
ghost use Rattle.state.specs.Ready.{Few};
ghost use Rattle.state.specs.View.{state_of, landed, told, told_row};
ghost use Rattle.header.specs.Columns.{notice_other, HeaderTable, Voiced};
ghost use Rattle.state.specs.Counts.{Same};

use notice::Code;
use place::{TextLine, TextToken};
use reading::Part;
use reference::Key;
use refusal::Refusal;
use sheet::{Notice, Span};
use spines::Line;
use state::Tally;

// A reference record: `!!!OTL`, `!!!COM` and `!!!LYR` set title, composer and lyricist; any other key gives notice 1.
#[tactic(auto, using(reference::proofs::ReferenceLaws::value_inside, reference::proofs::ReferenceLaws::key_inside))]
pub fn read_reference(line: TextLine, tally: Tally, out: &mut [u8]) -> Tally
    ensures told { (cells : List ℕ) (parts : List Part) → told (Ok result) cells parts out.new ≡ landed (goes (read_reference line.entry.number line.entry.offset line.entry.bytes.now (state_of cells parts tally))) out.old tally.at }
    ensures same { Same tally result }
{
    let r = reference::reference_of(interpretation::tail(line.bytes, 3));
    let from = line.offset + 3;
    let value = sheet::span_of(from + r.value_span.at as u32, r.value_span.len as u32);
    let key = r.key;
    match key {
        Key::Title => Tally {
            title: value,
            ..tally
        },
        Key::Composer => Tally {
            composer: value,
            ..tally
        },
        Key::Lyricist => Tally {
            lyricist: value,
            ..tally
        },
        Key::Other => {
            let key = sheet::span_of(from + r.key_span.at as u32, r.key_span.len as u32);
            let notice = Notice {
                number: u8::from(Code::UnsupportedReference),
                column: 0,
                line: line.number,
                value,
                key,
            };
            writing::keep(out, tally, notice)
        }
    }
}

// Whether every token of a line begins `**`.
fn all_exclusive(line: &[u8]) -> bool
    ensures { result ≡ each is_exclusive (tokens_of line.now) }
{
    line.split(|b| *b == b'\t').all(lines::is_exclusive)
}

// The header's table of active spines, and how many parts it has.
#[derive(Clone, Copy, PartialEq, Eq, Debug)]
struct Table {
    spines: [Option<Line>; 256],
    parts: usize,
}

// The table of the header's tokens.
fn table_of(line: &[u8]) -> Table
    requires { length (tokens_of line.now) ≤ 256 }
    ensures table { HeaderTable (tokens_of line.now) result.spines result.parts }
    ensures voices { (k : ℕ) → Voiced (active_at result.spines k) }
{
    let mut spines = [None; 256];
    let mut parts = 0;
    for (i, token) in line.split(|b| *b == b'\t').enumerate() {
        if lines::is_kern(token) {
            spines[i] = Some(Line {
                part: parts as u16,
                voice: 0,
            });
            parts += 1;
        }
    }
    Table { spines, parts }
}

// A row's cells, each looked up in the table.
fn lay_row(table: &[Option<Line>], row: &mut [u16])
    requires { length row.old ≤ length table.now }
    ensures { row.new ≡ take (length row.old) (cells_of table.now) }
{
    for (i, cell) in row.iter_mut().enumerate() {
        *cell = spines::cell_at(table, i);
    }
}

// The first row, and how many parts it has.
pub fn fill_row(line: &[u8], row: &mut [u16; 512]) -> usize
    requires { length (tokens_of line.now) ≤ 256 }
    ensures row { row_of (take (length (tokens_of line.now)) row.new) ≡ header_row (map is_kern (tokens_of line.now)) }
    ensures parts { (result ≡ length (fresh_parts 0 (map is_kern (tokens_of line.now)))) × (result ≤ 256) }
    ensures room { length row.new ≡ 512 }
{
    let columns = lines::token_count(line);
    let table = table_of(line);
    lay_row(&table.spines, &mut row[..columns]);
    table.parts
}

// The parts of the header, as many as the slice has, of which nothing is known.
fn fresh_parts(parts: &mut [Part])
    requires { length parts.old ≤ 256 }
    ensures { (ks : List Bool) → length parts.old ≡ length (fresh_parts 0 ks) → parts.new ≡ fresh_parts 0 ks }
{
    for (p, part) in parts.iter_mut().enumerate() {
        *part = state::fresh_part(p as u8);
    }
}

// Notice 2 for a token that isn't `**kern`.
fn notice_other(token: TextToken, tally: Tally, out: &mut [u8]) -> Tally
    ensures { (Same tally result) × ((cells : List ℕ) (parts : List Part) → told (Ok result) cells parts out.new ≡ landed (goes (notice_other token.entry.line token.entry.column token.entry.offset token.entry.bytes.now (state_of cells parts tally))) out.old tally.at) }
{
    if lines::is_kern(token.bytes) {
        return tally;
    }
    let piece = Span {
        at: token.offset,
        len: token.bytes.len() as u32,
    };
    writing::notify(
        out,
        tally,
        u8::from(Code::UnsupportedSpine),
        token.line,
        token.column,
        piece,
    )
}

// Notice 2 for each of them.
fn notice_others(line: TextLine, tally: Tally, out: &mut [u8]) -> Tally
    requires { length (tokens_of line.bytes.now) ≤ 256 }
    ensures { (Same tally result) × ((cells : List ℕ) (parts : List Part) → told (Ok result) cells parts out.new ≡ landed (goes (notice_others line.entry.number 1 (placed line.entry.offset (tokens_of line.entry.bytes.now)) (state_of cells parts tally))) out.old tally.at) }
{
    let mut t = tally;
    let mut at = line.offset;
    for (i, token) in line.bytes.split(|b| *b == b'\t').enumerate() {
        let column = i as u16 + 1;
        let token = TextToken {
            bytes: token,
            line: line.number,
            column,
            offset: at,
        };
        t = notice_other(token, t, out);
        at += token.bytes.len() as u32 + 1;
    }
    t
}

// The header: questions 3, 4 and 5, in this order; then the first row, its parts, and the notices.
pub fn read_header(
    line: TextLine,
    row: &mut [u16; 512],
    parts: &mut [Part; 256],
    tally: Tally,
    out: &mut [u8],
) -> Result<Tally, Refusal>
    ensures told { (cells : List ℕ) → told_row result row.new parts.new out.new ≡ landed (read_header line.entry.number line.entry.offset line.entry.bytes.now (state_of cells parts.old tally)) out.old tally.at }
    ensures few { Few result }
    ensures room { length row.new ≡ 512 }
{
    let exclusive = all_exclusive(line.bytes);
    let count = lines::token_count(line.bytes);
    let other = !exclusive;
    if other {
        return Err(Refusal::NotExclusive { line: line.number });
    }
    if 256 < count {
        return Err(Refusal::ManyColumns {
            line: line.number,
            columns: count,
        });
    }
    let kerns = fill_row(line.bytes, row);
    if kerns == 0 {
        return Err(Refusal::NoKern { line: line.number });
    }
    fresh_parts(&mut parts[..kerns]);
    let begun = Tally {
        active: count,
        parts: kerns,
        ..tally
    };
    let told = notice_others(line, begun, out);
    Ok(told)
}

#[cfg(test)]
mod tests {
    use super::*;
    use std::test::Fail;

    // A column outside kern has no line, and each line of a part has voice 0.
    #[test]
    fn lines_of_a_header(rt: HostRuntime) -> Result<(), Fail> {
        let line = b"**kern\t**dynam\t**kern";
        assert!(rt; lines::token_count(line) <= 256);
        let table = table_of(line);
        assert_eq!(rt; table.parts, 2);
        assert_eq!(rt; table.spines[0], Some(Line { part: 0, voice: 0 }));
        assert_eq!(rt; table.spines[1], None);
        assert_eq!(rt; table.spines[2], Some(Line { part: 1, voice: 0 }));
        Ok(())
    }
}
