#![tactic(auto)]

// Star records: what interpretations set, column by column, and the next row.
ghost use Rattle.std.specs.Prelude.{◌≡◌, ◌&&◌, not, ℕ, ◌+◌, ◌-◌, ◌≤◌, ◌<◌, List, [], length, take, get_or};
ghost use Rattle.slices.specs.Split.{pieces};
ghost use Rattle.lines.specs.Lines.{piece_end};
ghost use Rattle.lines.specs.Tokens.{tokens_of};
ghost use Rattle.paths.specs.declared.Spine.TheVariants.{Line};
ghost use Rattle.paths.specs.Token.{path_token, is_exchange};
ghost use Rattle.paths.specs.Trace.{token_at};
ghost use Rattle.spines.specs.Tokens.{path_tokens};
ghost use Rattle.sheet.specs.Record.{span_of};
ghost use Rattle.reading.specs.State.{goes};
ghost use Rattle.reading.specs.declared.Part.{Part};
ghost use Rattle.reading.specs.Notices.{placed};
ghost use Rattle.reading.specs.Star.{interpret, column_by, read_star};
ghost use Rattle.state.specs.Lay.{laid};
ghost use Rattle.state.specs.View.{state_of, landed, told, told_row};
ghost use Rattle.state.specs.Counts.{Same};
ghost use Rattle.state.specs.Ready.{Ready, Few};
ghost use Rattle.notice.specs.Number.{number_of};
ghost use Rattle.writing.specs.Kept.{notice_of, kept_records, after_kept};
ghost use Rattle.stars.specs.Columns.{filled, token_of, columns_of, with_first, tempoed, Comes, Fit};
ghost use Rattle.stars.specs.Next.{stepped};

use interpretation::Interpretation;
use notice::Code;
use paths::{PathToken, Spine};
use place::{TextLine, TextToken};
use reading::Part;
use refusal::Refusal;
use sheet::Span;
use state::Tally;
use voices::{Rows, Stop};

// The counts with a tempo, if it is the first.
fn with_first(tally: Tally, bpm: u16) -> Tally
    ensures { result ≡ with_first tally bpm }
{
    if tally.tempo == 0 {
        return Tally {
            tempo: bpm,
            ..tally
        };
    }
    tally
}

// The counts after an interpretation.
fn first_tempo(tally: Tally, what: Interpretation) -> Tally
    ensures { result ≡ tempoed what tally }
{
    match what {
        Interpretation::Tempo(bpm) => with_first(tally, bpm),
        _ => tally,
    }
}

// A notice that preserves the token.
fn notify(token: TextToken, what: Code, tally: Tally, out: &mut [u8]) -> Tally
    ensures { (out.new ≡ laid out.old tally.at (kept_records tally (notice_of (number_of what) token.entry.line token.entry.column (span_of token.entry.offset (length token.entry.bytes.now))) [])) × (result ≡ after_kept tally (notice_of (number_of what) token.entry.line token.entry.column (span_of token.entry.offset (length token.entry.bytes.now))) []) }
{
    let piece = Span {
        at: token.offset,
        len: token.bytes.len() as u32,
    };
    writing::notify(out, tally, u8::from(what), token.line, token.column, piece)
}

// An ordinary interpretation in a line of a part.
fn apply(token: TextToken, p: usize, parts: &mut [Part; 256], tally: Tally, out: &mut [u8]) -> Tally
    requires { (p < tally.parts) × (tally.parts ≤ 256) }
    ensures { Comes (interpret (Line p 0) token.entry.line token.entry.column (token_of token.entry.offset token.entry.bytes.now)) parts.old out.old tally parts.new out.new result }
{
    match interpretation::interpret(token.bytes, parts[p].noted) {
        Ok(what) => {
            let len = token.bytes.len() as u32;
            tandem::change(&mut parts[p], what, token.offset, len);
            first_tempo(tally, what)
        }
        Err(why) => notify(token, Code::from(why), tally, out),
    }
}

// An ordinary interpretation in a column of that spine: nothing outside the lines of the parts.
fn apply_in(
    token: TextToken,
    spine: Spine,
    parts: &mut [Part; 256],
    tally: Tally,
    out: &mut [u8],
) -> Tally
    requires { Fit spine tally }
    ensures { Comes (interpret spine token.entry.line token.entry.column (token_of token.entry.offset token.entry.bytes.now)) parts.old out.old tally parts.new out.new result }
{
    match spine {
        Spine::Line { part, .. } => apply(token, part, parts, tally, out),
        Spine::Branch { .. } | Spine::Outside => tally,
    }
}

// A column: `paired` says whether its `*x` exchanges.
fn read_column(
    token: TextToken,
    paired: bool,
    spine: Spine,
    parts: &mut [Part; 256],
    tally: Tally,
    out: &mut [u8],
) -> Tally
    requires { Fit spine tally }
    ensures { Comes (column_by (path_token token.entry.bytes.now) paired spine token.entry.line token.entry.column (token_of token.entry.offset token.entry.bytes.now)) parts.old out.old tally parts.new out.new result }
{
    match paths::path_token(token.bytes) {
        PathToken::Exchange if paired => tally,
        PathToken::Exchange | PathToken::Other => apply_in(token, spine, parts, tally, out),
        PathToken::Split | PathToken::Join | PathToken::End => tally,
        PathToken::Add => notify(token, Code::UnsupportedSpineAdd, tally, out),
    }
}

// Whether the token from `from` to `end`, where n are still wanted, exchanges with the one to its right: `left` says whether it does with the one to its left.
#[tactic(auto, using(lines::proofs::PieceLaws::piece_at_lem))]
fn exchanges_right(line: &[u8], from: usize, end: usize, n: usize, left: bool) -> bool
    requires { (0 < n) × ((from ≤ length line.now) × (end ≡ piece_end 9 line.now from)) }
    ensures { result ≡ (is_exchange (token_at (path_tokens n (pieces 9 from line.now)) 0) && is_exchange (token_at (path_tokens n (pieces 9 from line.now)) 1) && not left) }
{
    if left {
        return false;
    }
    if paths::path_token(&line[from..end]) == PathToken::Exchange {
        return spines::token_at(line, end + 1, n - 1).kind == PathToken::Exchange;
    }
    false
}

// The columns of a star record under a row, as far as the line has tokens.
// Stays: no plainer: a turn asks for the token ahead too, which may be missing; `split` would be walked twice, one token apart.
pub fn read_columns(
    line: TextLine,
    row: &[u16],
    parts: &mut [Part; 256],
    tally: Tally,
    out: &mut [u8],
) -> Tally
    requires { Ready row.now tally }
    ensures told { told (Ok result) row.now parts.new out.new ≡ landed (goes (columns_of line.entry.bytes.now row.now line.entry.number line.entry.offset (state_of row.now parts.old tally))) out.old tally.at }
    ensures held { Same tally result }
{
    let text = line.bytes;
    let mut t = tally;
    let mut left = false;
    let mut from = 0;
    for (i, &cell) in row.iter().enumerate() {
        if text.len() < from {
            return t;
        }
        let end = lines::token_end(text, from);
        let right = exchanges_right(text, from, end, row.len() - i, left);
        let paired = right || left;
        let token = TextToken {
            bytes: &text[from..end],
            line: line.number,
            column: i as u16 + 1,
            offset: line.offset + from as u32,
        };
        t = read_column(token, paired, spines::spine_of(cell), parts, t, out);
        left = right;
        from = end + 1;
    }
    t
}

// The answer: questions 17, 8 and 9, or the next row's width.
fn answer(step: Result<usize, Stop>, tally: Tally, number: u32) -> Result<Tally, Refusal>
    ensures { result ≡ stepped step tally number }
{
    match step {
        Ok(active) => Ok(Tally { active, ..tally }),
        Err(Stop::Mixed(column)) => Err(Refusal::MixedJoin {
            line: number,
            column,
        }),
        Err(Stop::Voiceless(p)) => Err(Refusal::StaffFull {
            line: number,
            part: usize::from(p),
        }),
        Err(Stop::Wide(n)) => Err(Refusal::ManySpines {
            line: number,
            spines: n,
        }),
    }
}

// A star record: its columns, then the next row over the old one.
pub fn read_star(
    line: TextLine,
    rows: &mut Rows,
    parts: &mut [Part; 256],
    tally: Tally,
    out: &mut [u8],
) -> Result<Tally, Refusal>
    requires { (tally.active ≤ 256) × Ready (take tally.active rows.old.row) tally }
    ensures told { told_row result rows.new.row parts.new out.new ≡ landed (read_star line.entry.number (placed line.entry.offset (filled (length (take tally.active rows.old.row)) (tokens_of line.entry.bytes.now))) (state_of (take tally.active rows.old.row) parts.old tally)) out.old tally.at }
    ensures few { Few result }
{
    let active = tally.active;
    let t = read_columns(line, &rows.row[..active], parts, tally, out);
    let step = rows.step(line.bytes, active);
    answer(step, t, line.number)
}
