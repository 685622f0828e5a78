#![tactic(auto)]

// Reads a list of texts, each behind its length in decimal and a LF, and writes for each the sheet's length, a LF, the sheet and a LF, or
// number, line and figure of its refusal and a LF. A line of three numbers stands before a text that is too long for the list: so many bytes
// once, so many behind them, and how often these come, as far as 327,680 bytes go. 65,536 bytes are read at most.
use std::alloc::Global;
use std::io::{self, BufRead, BufReader, Read};

fn answer(rt: &impl Print, text: &[u8]) -> io::Result<()> {
    let mut out = [0u8; 65536];
    match reader::read(text, &mut out) {
        Ok(long) => {
            println!(rt; "{long}")?;
            rt.write_all(&out[..long])?;
            println!(rt; "")
        }
        Err(refusal) => println!(rt; "{refusal}"),
    }
}

// The number that decimal digits write, its last five.
fn number_of(digits: &[u8]) -> u64 {
    digits
        .iter()
        .fold(0, |n, digit| n % 10_000 * 10 + u64::from(digit % 16))
}

// The next text of the list, whose line says how long it is: bytes once, and others behind them so many times, as far as there is room.
fn next_text(alloc: Global, head: &[u8], list: &mut (impl Read + Drop)) -> io::Result<Vec<u8>> {
    let mut numbers = head.splitn(3, |b| *b == b' ').map(number_of);
    let long = numbers.next().unwrap_or(0);
    let more = numbers.next().unwrap_or(0);
    let times = numbers.next().unwrap_or(0);
    let mut text = Vec::new(alloc);
    list.by_ref().take(long).read_to_end(&mut text)?;
    let mut unit = Vec::new(alloc);
    list.by_ref().take(more).read_to_end(&mut unit)?;
    for _ in 0..times {
        if 327_680 < text.len().saturating_add(unit.len()) {
            break;
        }
        text.extend_from_slice(&unit)?;
    }
    Ok(text)
}

fn main(rt: HostRuntime) -> io::Result<()> {
    let alloc = rt.alloc();
    let mut list = BufReader::new(alloc, rt.reader().take(65536))?;
    let mut head = Vec::new(alloc);
    for _ in 0..u64::MAX {
        head.clear();
        if list.read_until(b'\n', &mut head)? == 0 {
            break;
        }
        let head = head.strip_suffix(b"\n").unwrap_or(&head);
        let text = next_text(alloc, head, &mut list)?;
        answer(&rt, &text)?;
    }
    Ok(())
}
