#![tactic(auto)]

// Answers with the row that star records make of a header, a request and an answer to a line. A request is `V`, a letter for each header
// column (`k` kern, `o` another), and the records, each behind a `|`. The answer has part and voice of each column, `-` outside
// kern, or the number of the question that stops the reading, 17 with its column. 65,536 bytes are read at most.
ghost use Rattle.std.specs.Prelude.{◌≡◌, cond, eqb};
ghost use Rattle.spines.specs.Table.{active_spine};

use paths::Spine;
use spines::Line;
use std::io::{self, BufRead, BufReader, Read};
use voices::{Rows, Stop};

// The line of a header's column: the first of the part where the letter is `k`, else none.
fn first_line(letter: u8, part: u8) -> Option<Line>
    ensures { active_spine result ≡ cond (eqb letter 107) (Spine.Line part 0) Spine.Outside }
{
    (letter == b'k').then_some(Line {
        part: u16::from(part),
        voice: 0,
    })
}

// The header's row, by the letters of its columns.
fn header_row(letters: &[u8]) -> [u16; 512] {
    let mut row = [0; 512];
    let mut part = 0u8;
    for (cell, letter) in row.iter_mut().zip(letters) {
        let line = first_line(*letter, part);
        *cell = spines::cell_at(&[line], 0);
        part = part.wrapping_add(u8::from(line.is_some()));
    }
    row
}

fn print_row(rt: &impl Print, row: &[u16]) -> io::Result<()> {
    for (i, cell) in row.iter().enumerate() {
        if 0 < i {
            print!(rt; " ")?;
        }
        match spines::spine_of(*cell) {
            Spine::Outside => print!(rt; "-")?,
            Spine::Line { part, voice } => print!(rt; "{part}.{voice}")?,
            Spine::Branch { part } => print!(rt; "{part}.4")?,
        }
    }
    Ok(())
}

// Takes the row through a request's header and its records, a `|` behind the last or none: how many spines are active then.
fn walk(request: &[u8], rows: &mut Rows) -> Result<usize, Stop> {
    let mut pieces = request.splitn(2, |b| *b == b'|');
    let header = pieces.next().unwrap_or(b"");
    let letters = header.get(1..).unwrap_or(b"");
    rows.row = header_row(letters);
    let mut active = letters.len().min(256);
    let records = pieces.next().unwrap_or(b"");
    for record in records.split_inclusive(|b| *b == b'|') {
        active = rows.step(record.strip_suffix(b"|").unwrap_or(record), active)?;
    }
    Ok(active)
}

fn answer(rt: &impl Print, request: &[u8]) -> io::Result<()> {
    let mut rows = Rows::empty();
    match walk(request, &mut rows) {
        Ok(active) => print_row(rt, &rows.row[..active.min(512)]),
        Err(Stop::Mixed(column)) => print!(rt; "17 {column}"),
        Err(Stop::Voiceless(_)) => print!(rt; "8"),
        Err(Stop::Wide(_)) => print!(rt; "9"),
    }
}

// Stays: `leaves` and `tokens` have this main too; one over a closure would be a crate that promises nothing, for no clause says what is read.
fn main(rt: HostRuntime) -> io::Result<()> {
    let alloc = rt.alloc();
    for request in BufReader::new(alloc, rt.reader().take(65536))?.split(alloc, b'\n') {
        answer(&rt, &request?)?;
        println!(rt; "")?;
    }
    Ok(())
}

#[cfg(test)]
mod tests {
    use super::*;
    use std::test::Fail;

    // Two columns of kern about one that isn't: each line has voice 0, and a cell of its own.
    #[test]
    fn lines_of_a_header(rt: HostRuntime) -> Result<(), Fail> {
        assert_eq!(rt; first_line(b'k', 1), Some(Line { part: 1, voice: 0 }));
        assert_eq!(rt; first_line(b'o', 1), None);
        let row = header_row(b"kok");
        assert_eq!(rt; row[0], 8);
        assert_eq!(rt; row[1], 0);
        assert_eq!(rt; row[2], 16);
        Ok(())
    }
}
