#![tactic(auto)]

// Answers what becomes of the last token of a record whose columns are all kern, a request and an answer to a line: `T` and the record.
// The answer has the token's notices, 17 with its bytes, and then its note: value, actual, normal, dots, flags, beam, the bytes of its
// pitches and its articulations; the pitches of fewer than 300, and 1,024 bytes at most of each list. 65,536 bytes are read at most.
use duration::Value;
use notation::beam::Beam;
use notice::Code;
use std::io::{self, BufRead, BufReader, Read};
use token::outcome::{Note, Unread};

fn print_bytes(rt: &impl Print, bytes: &[u8]) -> io::Result<()> {
    for b in bytes {
        print!(rt; "{b} ")?;
    }
    Ok(())
}

// The flags of a note, as a NOTE has them.
// Stays: no plainer: `notes::flags_of` again; as a method of `Note`, its definition would have to move from `reading` to `token`.
fn flags_of(n: Note) -> u8 {
    u8::from(n.rest)
        + 2 * u8::from(n.ties)
        + 4 * u8::from(n.tied)
        + 8 * u8::from(n.slurs)
        + 16 * u8::from(n.slurred)
        + 32 * u8::from(0 < n.grace)
        + 64 * u8::from(n.grace == 2)
}

// The beam of a token, where none is held.
fn beam_of(token: &[u8]) -> u8 {
    let letters = notation::beam::beam_letters(token);
    let fresh = Beam { held: false };
    u8::from(fresh.next(letters.starts, letters.ends).mark)
}

fn print_note(rt: &(impl Print + AllocGlobal), n: Note, token: &[u8]) -> io::Result<()> {
    print!(rt; "note {} {} {} {} ", n.value, n.actual, n.normal, n.dots)?;
    print!(rt; "{} {} {} ", flags_of(n), beam_of(token), n.pitches)?;
    if n.pitches < 300 {
        let mut pitches = vec![in rt.alloc(); 0u8; n.pitches * 3]?;
        lists::put_pitches(&mut pitches, token);
        print_bytes(rt, &pitches)?;
    }
    print!(rt; "{} ", n.articulations)?;
    let mut articulations = vec![in rt.alloc(); 0u8; n.articulations.min(1024)]?;
    lists::put_articulations(&mut articulations, token);
    print_bytes(rt, &articulations)
}

fn print_signifiers(rt: &(impl Print + AllocGlobal), count: usize, token: &[u8]) -> io::Result<()> {
    if count == 0 {
        return Ok(());
    }
    let mut signifiers = vec![in rt.alloc(); 0u8; count.min(1024)]?;
    lists::put_signifiers(&mut signifiers, token);
    print!(rt; "17 ")?;
    rt.write_all(&signifiers)?;
    print!(rt; " ")
}

// The length that a bare token takes from its record, of up to 16 columns.
fn inferred_for(line: &[u8], token: &[u8]) -> Option<Value> {
    if peers::is_bare(token) {
        return peers::agreed_duration(line, &[8u16; 16]);
    }
    None
}

fn answer(rt: &(impl Print + AllocGlobal), line: &[u8]) -> io::Result<()> {
    let token = line.rsplit(|b| *b == b'\t').next().unwrap_or(line);
    let scan = scan::scan_token(token);
    match scan::outcome::kern_token(scan, inferred_for(line, token)) {
        Ok(None) => Ok(()),
        Err(why) => {
            if why != Unread::BadLength {
                print_signifiers(rt, scan.signifiers, token)?;
            }
            print!(rt; "{} ", u8::from(Code::from(why)))
        }
        Ok(Some(note)) => {
            print_signifiers(rt, scan.signifiers, token)?;
            if note.inferred {
                print!(rt; "20 ")?;
            }
            print_note(rt, note, token)
        }
    }
}

// Stays: `leaves` and `rows` have this main too; one over a closure would be a crate that promises nothing, for no clause says what is read.
fn main(rt: HostRuntime) -> io::Result<()> {
    let alloc = rt.alloc();
    for request in BufReader::new(alloc, rt.reader().take(65536))?.split(alloc, b'\n') {
        let request = request?;
        answer(&rt, request.get(1..).unwrap_or(b""))?;
        println!(rt; "")?;
    }
    Ok(())
}
