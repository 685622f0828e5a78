#![tactic(auto)]

// Which lines of a part fill its staff where a record splits one more: the columns that carry a line on, then the branches.
ghost use Rattle.std.specs.Prelude.{◌≡◌, ℕ, ◌≤◌, ◌<◌, [], map, ◌&&◌, false, length, get_or, take, Some};
ghost use Rattle.lines.specs.Tokens.{tokens_of, is_kern};
ghost use Rattle.spines.specs.Cells.{spine_of, row_of};
ghost use Rattle.spines.specs.Table.{active_spine, active_row, line_of};
ghost use Rattle.spines.specs.Tokens.{record_tokens};
ghost use Rattle.holders.specs.Walk.{listed, is_of, carries, is_split, line_voice, lines_from, branches_from, walked, kern_column, or_zero};

mod list;

pub use list::{Holder, Holders};
use paths::PathToken;
use spines::Line;

// Whether a token carries its column's line on: `follows` says whether a `*v` stands to its left.
fn carries(t: PathToken, follows: bool) -> bool
    ensures { result ≡ carries t follows }
{
    match t {
        PathToken::Join => !follows,
        PathToken::End => false,
        _ => true,
    }
}

// The voice of a line of the part.
fn line_voice(line: Option<Line>, part: usize) -> Option<usize>
    ensures { result ≡ line_voice part (active_spine line) }
{
    match line {
        Some(line) if usize::from(line.part) == part => Some(usize::from(line.voice)),
        _ => None,
    }
}

// A row, with the table of active spines of its first columns.
#[derive(Clone, Copy, Debug, PartialEq, Eq)]
struct Row<'a> {
    cells: &'a [u16],
    table: &'a [Option<Line>],
    ghost filled: { active_row table.now ≡ map line_of (row_of (take (length table.now) cells.now)) },
}

impl Row<'_> {
    // The line of a column, looked up in the table; behind the table, in one of that column's cell alone.
    fn line_at(self, column: usize) -> Option<Line>
        requires { column < length self.cells.now }
        ensures { active_spine result ≡ line_of (spine_of (get_or self.entry.cells.now column 0)) }
    {
        if column < self.table.len() {
            return spines::active_at(self.table, column);
        }
        let mut own = [None];
        spines::fill_table(&self.cells[column..column + 1], &mut own);
        spines::active_at(&own, 0)
    }
}

// The columns of a row that carry a line of the part on through a record, by rising column.
fn lines_of(line: &[u8], row: Row<'_>, part: usize, header: usize) -> Holders
    ensures { listed result ≡ lines_from part header [] 0 false (record_tokens (length row.entry.cells.now) line.now) (map line_of (row_of row.entry.cells.now)) }
{
    let mut held = Holders::empty();
    let mut follows = false;
    let mut from = 0;
    for i in 0..row.cells.len() {
        let token = spines::token_at(line, from, row.cells.len() - i);
        if let Some(voice) = line_voice(row.line_at(i), part) {
            if carries(token.kind, follows) {
                held.push(Holder {
                    column: i + 1,
                    voice,
                    header,
                });
            }
        }
        follows = token.kind == PathToken::Join;
        from = token.next;
    }
    held
}

// Whether the token under a spine gives a branch of the part.
fn is_branch(line: Option<Line>, part: usize, t: PathToken) -> bool
    ensures { result ≡ (is_of part (active_spine line) && is_split t) }
{
    t == PathToken::Split && line_voice(line, part).is_some()
}

// The branches of the part behind its lines, left to right, up to the one that finds no voice.
// Stays: no plainer: a walk of its own, as the branches come behind all lines; one walk for both would keep a second list.
fn branches_of(line: &[u8], row: Row<'_>, part: usize, header: usize, lines: Holders) -> Holders
    ensures { listed result ≡ branches_from part header (listed lines) 0 (record_tokens (length row.entry.cells.now) line.now) (map line_of (row_of row.entry.cells.now)) }
{
    let mut held = lines;
    let mut from = 0;
    for i in 0..row.cells.len() {
        let token = spines::token_at(line, from, row.cells.len() - i);
        from = token.next;
        if !is_branch(row.line_at(i), part, token.kind) {
            continue;
        }
        let voice = held.free_voice();
        let column = i + 1;
        held.push(Holder {
            column,
            voice: voice.unwrap_or(4),
            header,
        });
        if voice.is_none() {
            return held;
        }
    }
    held
}

// What fills the staff of a part, whose header column is given, at a record under a row: the table of active spines of its first 256
// columns is filled once, and each column is looked up.
pub fn holders_of(line: &[u8], row: &[u16], part: usize, header: usize) -> Holders
    ensures { listed result ≡ walked part header (record_tokens (length row.now) line.now) (row_of row.now) }
{
    let mut spines = [None; 256];
    let first = &row[..row.len().min(256)];
    let table = &mut spines[..first.len()];
    spines::fill_table(first, table);
    let row = Row { cells: row, table };
    let lines = lines_of(line, row, part, header);
    branches_of(line, row, part, header, lines)
}

// The column, from 1, of the header's token that is `**kern` with so many before it.
pub fn kern_column(line: &[u8], part: usize) -> Option<usize>
    ensures number { or_zero result ≡ kern_column 0 part (map is_kern (tokens_of line.now)) }
    ensures column { (c : ℕ) → result ≡ Some c → 0 < c }
{
    let tokens = line.split(|b| *b == b'\t').enumerate();
    let (before, _) = tokens.filter(|(_, token)| lines::is_kern(token)).nth(part)?;
    Some(before + 1)
}
