#![tactic(auto)]

// The row of spines, what a record's path tokens join, its next row by them, and the table of active spines.
ghost use Rattle.std.specs.Prelude.{◌≡◌, min, ◌*◌, ◌≤◌, ◌<◌, length, take, map};
ghost use Rattle.paths.specs.Joins.{mixed_run};
ghost use Rattle.paths.specs.Row.{part_at, next_row};
ghost use Rattle.paths.specs.Voices.{Outcome, unmixed};
ghost use Rattle.spines.specs.Cells.{spine_of, row_of};
ghost use Rattle.spines.specs.Runs.{runs_of};
ghost use Rattle.spines.specs.Table.{active_at, cell_of, line_of, active_spine, active_row};
ghost use Rattle.spines.specs.Tokens.{record_tokens, Ahead};
ghost use Rattle.spines.specs.Emit.{mode_of, Emitted};

mod active;

pub use active::Line;
use paths::{PathToken, Spine};

// The spine of a cell.
// Stays: fixed memory: a row is packed, two bytes a spine, and the masks of `voices` stand by a cell's number of its part.
pub fn spine_of(cell: u16) -> Spine
    ensures { result ≡ spine_of cell }
{
    let place = usize::from(cell / 8);
    let voice = usize::from(cell % 8);
    if place == 0 {
        return Spine::Outside;
    }
    let part = place - 1;
    if voice < 4 {
        return Spine::Line { part, voice };
    }
    Spine::Branch { part }
}

// What stands to the left of a column: nothing that matters, a `*v`, or the left one of two that exchange.
#[derive(Clone, Copy, Debug, PartialEq, Eq)]
enum Left {
    Nothing,
    Joined,
    Exchanged,
}

// What a token gives: how many of two cells, the cells, and what then stands to the left.
// Stays: no plainer: an enum of no, one and two cells would be matched at each turn to do what two plain stores do.
#[derive(Clone, Copy, Debug, PartialEq, Eq)]
struct Emission {
    count: usize,
    first: u16,
    second: u16,
    left: Left,
}

impl Emission {
    fn none(left: Left) -> Emission
        ensures { result ≡ record { count = 0; first = 0; second = 0; left = left } }
    {
        Emission {
            count: 0,
            first: 0,
            second: 0,
            left,
        }
    }

    fn one(first: u16, left: Left) -> Emission
        ensures { result ≡ record { count = 1; first = first; second = 0; left = left } }
    {
        Emission {
            count: 1,
            first,
            second: 0,
            left,
        }
    }

    fn two(first: u16, second: u16) -> Emission
        ensures { result ≡ record { count = 2; first = first; second = second; left = Left.Nothing } }
    {
        Emission {
            count: 2,
            first,
            second,
            left: Left::Nothing,
        }
    }
}

// A token, and where the next one begins.
#[derive(Clone, Copy, Debug, PartialEq, Eq)]
pub struct Token {
    pub kind: PathToken,
    pub next: usize,
}

// The token that begins at `from`, where n are still wanted; an ordinary one where the line has none left.
// Stays: no plainer: as many tokens are wanted as the row has spines, so an iterator over the line's own could end too early.
pub fn token_at(line: &[u8], from: usize, n: usize) -> Token
    ensures { Ahead line.now from n result.kind result.next }
{
    if n == 0 || line.len() < from {
        return Token {
            kind: PathToken::Other,
            next: from,
        };
    }
    let end = lines::token_end(line, from);
    Token {
        kind: paths::path_token(&line[from..end]),
        next: end + 1,
    }
}

// What a token gives: b is the cell to the left, c its own, and d the one to the right; `pair` says whether an `*x` stands there.
fn emit(left: Left, token: PathToken, pair: bool, b: u16, c: u16, d: u16) -> Emission
    ensures { Emitted (mode_of left) token pair b c d result.count result.first result.second result.left }
{
    if left == Left::Exchanged {
        return Emission::one(b, Left::Nothing);
    }
    match token {
        PathToken::Split => Emission::two(c, c / 8 * 8 + 4),
        PathToken::Join if left == Left::Joined => Emission::none(Left::Joined),
        PathToken::Join => Emission::one(c, Left::Joined),
        PathToken::Exchange if pair => Emission::one(d, Left::Exchanged),
        PathToken::Exchange => Emission::one(c, Left::Nothing),
        PathToken::End => Emission::none(Left::Nothing),
        PathToken::Add => Emission::two(c, 0),
        PathToken::Other => Emission::one(c, Left::Nothing),
    }
}

// The next row of a row, its branches still without a voice: one pass over the tokens, with one token of look-ahead.
fn walk_row(line: &[u8], row: &[u16], next: &mut [u16]) -> usize
    requires { 2 * length row.now ≤ length next.old }
    ensures made { row_of (take result next.new) ≡ next_row (record_tokens (length row.now) line.now) (row_of row.now) }
    ensures fits { result ≤ 2 * length row.now }
{
    let mut token = token_at(line, 0, row.len());
    let mut left = Left::Nothing;
    let mut b = 0;
    let mut n = 0;
    for (i, &c) in row.iter().enumerate() {
        let ahead = token_at(line, token.next, row.len() - (i + 1));
        let d = row.get(i + 1).copied().unwrap_or(c);
        let e = emit(left, token.kind, ahead.kind == PathToken::Exchange, b, c, d);
        next[n] = e.first;
        next[n + 1] = e.second;
        n += e.count;
        left = e.left;
        b = c;
        token = ahead;
    }
    n
}

// The next row of the first `active` cells, at most 256, its branches still without a voice: its length, and its cells in `next`.
pub fn next_row(line: &[u8], row: &[u16; 512], active: usize, next: &mut [u16; 512]) -> usize
    ensures made { row_of (take result next.new) ≡ next_row (record_tokens (min active 256) line.now) (row_of (take (min active 256) row.now)) }
    ensures fits { result ≤ 512 }
{
    walk_row(line, &row[..active.min(256)], next)
}

// One pass over the tokens: each `*v` is held to the first one of its run.
fn walk_runs(line: &[u8], row: &[u16]) -> Option<usize>
    ensures { (o : Outcome) → runs_of result o ≡ unmixed (mixed_run (part_at (row_of row.now)) (record_tokens (length row.now) line.now)) o }
{
    let mut from = 0;
    // where the run of `*v` began that stands to the left
    let mut run = None;
    for (i, &cell) in row.iter().enumerate() {
        let token = token_at(line, from, row.len() - i);
        let join = token.kind == PathToken::Join;
        let begin = run.unwrap_or(i);
        if join && row[begin] / 8 != cell / 8 {
            return Some(begin + 1);
        }
        run = join.then_some(begin);
        from = token.next;
    }
    None
}

// Question 17: where the first run of `*v` of a record begins that mixes origins, its column from 1; the row is the first `active` cells, at most 256.
pub fn mixed_run(line: &[u8], row: &[u16; 512], active: usize) -> Option<usize>
    ensures { (o : Outcome) → runs_of result o ≡ unmixed (mixed_run (part_at (row_of (take (min active 256) row.now))) (record_tokens (min active 256) line.now)) o }
{
    walk_runs(line, &row[..active.min(256)])
}

// The line of a cell: none outside kern, and none of a branch, which still needs a voice.
fn line_of(cell: u16) -> Option<Line>
    ensures { active_spine result ≡ line_of (spine_of cell) }
{
    match spine_of(cell) {
        Spine::Line { part, voice } => Some(Line {
            part: part as u16,
            voice: voice as u8,
        }),
        _ => None,
    }
}

// Fills the table of active spines of a row: the line of each cell.
pub fn fill_table(row: &[u16], spines: &mut [Option<Line>])
    requires { length spines.old ≡ length row.now }
    ensures { active_row spines.new ≡ map line_of (row_of row.now) }
{
    for (i, spine) in spines.iter_mut().enumerate() {
        *spine = line_of(row[i]);
    }
}

// The table of active spines, looked up by column: a line, or none outside kern.
pub fn active_at(spines: &[Option<Line>], column: usize) -> Option<Line>
    requires { column < length spines.now }
    ensures { result ≡ active_at spines.now column }
{
    spines[column]
}

// The cell of the spine of a column, 0 outside kern.
#[tactic(auto, unfolding(crate::specs::Table::cell_of))]
pub fn cell_at(spines: &[Option<Line>], column: usize) -> u16
    requires { column < length spines.now }
    ensures { result ≡ cell_of (active_at spines.now column) }
{
    active_at(spines, column).map_or(0, u16::from)
}
