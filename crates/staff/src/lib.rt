#![tactic(auto)]

// Reads a text as `reader::read` does, and says of one that is refused with 8 which lines fill the staff.
ghost use Rattle.std.specs.Prelude.{◌≡◌, ℕ, ◌-◌, ◌≤◌, ◌<◌, ◌^◌, false, [], take, Some};
ghost use Rattle.lines.specs.Lines.{lines_of, without_crs};
ghost use Rattle.spines.specs.Cells.{row_of};
ghost use Rattle.holders.specs.Holders.{Five};
ghost use Rattle.holders.specs.Walk.{listed, or_zero, kern_column};
ghost use Rattle.reading.specs.Text.{answer_of, buffer_of};
ghost use Rattle.account.specs.Reached.{Question8, Question17};
ghost use Rattle.account.specs.Rows.{header_of};
ghost use Rattle.demand.specs.Played.{Played};
ghost use Rattle.reader.specs.Answer.{numbers_of};
ghost use Rattle.refusal.specs.declared.Refusal.TheVariants.{StaffFull, ShortBuffer};
ghost use Rattle.staff.specs.Row.{headed_by, row_past, row_through, walked_at};
ghost use Rattle.staff.specs.Filling.{filling_of};

use holders::Holders;
use lines::Kind;
use refusal::Refusal;
use voices::Rows;

// The reader's answer, and the lines that fill the staff: five of a text that is refused with 8, none of any other.
#[derive(Clone, Copy, Debug)]
pub struct Explained {
    pub answer: Result<usize, Refusal>,
    pub lines: Holders,
}

// A line without the CRs at its end.
fn bare(line: &[u8]) -> &[u8]
    ensures { result.now ≡ without_crs line.now }
{
    &line[..lines::content(line)]
}

// The header's row.
fn header_row(line: &[u8], rows: &mut Rows) -> usize
    ensures { (row_of (take result rows.new.row) ≡ headed_by line.now) × (result ≤ 256) }
{
    let n = lines::token_count(line);
    if 256 < n {
        return 0;
    }
    header::fill_row(line, &mut rows.row);
    n
}

// The row behind a line: the header's, or a later star record's next row. Any other line keeps it.
fn row_past(begun: bool, line: &[u8], rows: &mut Rows, active: usize) -> usize
    requires { active ≤ 256 }
    ensures { (row_of (take result rows.new.row) ≡ row_past begun line.now (row_of (take active rows.old.row))) × (result ≤ 256) }
{
    match (begun, lines::line_kind(line)) {
        (true, Kind::Star) => rows.step(line, active).unwrap_or(0),
        (false, Kind::Star | Kind::Bar | Kind::Data) => header_row(line, rows),
        _ => active,
    }
}

// How many spines stand before line k, whose row is then in `rows`.
fn row_before(text: &[u8], k: usize, rows: &mut Rows) -> usize
    ensures { (row_of (take result rows.new.row) ≡ row_through false [] (take (k - 1) (lines_of text.now))) × (result ≤ 256) }
{
    let mut begun = false;
    let mut active = 0;
    for line in text.split(|b| *b == b'\n').take(k.saturating_sub(1)) {
        let line = bare(line);
        active = row_past(begun, line, rows, active);
        begun |= records::is_record(lines::line_kind(line));
    }
    active
}

// The header column of a part, from 1.
fn header_column(text: &[u8], part: usize) -> Option<usize>
    ensures number { or_zero result ≡ kern_column 0 part (header_of text.now) }
    ensures column { (c : ℕ) → result ≡ Some c → 0 < c }
{
    let mut lines = text.split(|b| *b == b'\n').map(bare);
    let header = lines.find(|line| records::is_record(lines::line_kind(line)))?;
    holders::kern_column(header, part)
}

// What fills the staff of a part at the record on line k.
fn filling(text: &[u8], k: usize, part: usize) -> Holders
    ensures { listed result ≡ walked_at text.now k part }
{
    let mut rows = Rows::empty();
    let active = row_before(text, k, &mut rows);
    let lines = &mut text.split(|b| *b == b'\n');
    let line = bare(lines.nth(k.saturating_sub(1)).unwrap_or(b""));
    let header = header_column(text, part).unwrap_or(0);
    holders::holders_of(line, &rows.row[..active], part, header)
}

// The lines that fill the staff of a text that is refused with 8, none of one that is refused otherwise.
fn lines_behind(text: &[u8], refusal: Refusal) -> Holders
    ensures full { (k q : ℕ) → refusal ≡ StaffFull k q → listed result ≡ walked_at text.now k q }
    ensures other { ((k q : ℕ) → refusal ≡ StaffFull k q → ⊥) → listed result ≡ [] }
{
    match refusal {
        Refusal::StaffFull { line, part } => filling(text, line as usize, part),
        _ => Holders::empty(),
    }
}

// Reads a text into a lent buffer as `reader::read` does. Where it is refused with 8, the columns that carry a line of the part on through the
// record, and then its branches up to the one that finds no voice: five entries, each its column, voice and header column.
pub fn read_with_lines(text: &[u8], out: &mut [u8]) -> Explained
    ensures answer { numbers_of result.answer ≡ answer_of text.now out.old }
    ensures buffer { out.new ≡ buffer_of text.now out.old }
    ensures played { (n : ℕ) → result.answer ≡ Ok n → Played text.now out.new }
    ensures needed { (f : ℕ) → result.answer ≡ Err (ShortBuffer f) → f < 2 ^ 32 }
    ensures stopped { Question8 text.now (numbers_of result.answer) }
    ensures joined { Question17 text.now (numbers_of result.answer) }
    ensures lines { listed result.lines ≡ filling_of text.now }
    ensures filled { (k q : ℕ) → result.answer ≡ Err (StaffFull k q) → Five (listed result.lines) }
{
    let answer = reader::read(text, out);
    let lines = match answer {
        Ok(_) => Holders::empty(),
        Err(refusal) => lines_behind(text, refusal),
    };
    Explained { answer, lines }
}
