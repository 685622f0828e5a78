#![tactic(auto)]

// Answers requests about the reader's leaves, a request and an answer to a line. The first byte of a request names the leaf. 65,536 bytes
// are read at most.
use duration::Value;
use interpretation::Interpretation;
use names::SpineName;
use notation::beam::Beam;
use notice::Code;
use pitch::Pitch;
use reference::Key;
use std::io::{self, BufRead, BufReader, Read};

// The number that digits write, its last ten digits, below 2^32.
fn number_of(digits: &[u8]) -> u32 {
    let n = digits.iter().fold(
        0u64,
        |n, digit| n % 1_000_000_000 * 10 + u64::from(digit % 16),
    );
    (n % 4_294_967_296) as u32
}

// The number that up to three digits write, below 256.
fn byte_of(digits: &[u8]) -> u8 {
    let first = digits.get(..3).unwrap_or(digits);
    (number_of(first) % 256) as u8
}

// D: a length as it is spelled, to value, actual, normal.
fn duration_of(rt: &impl Print, spelling: &[u8]) -> io::Result<()> {
    match duration::spelled_value(spelling) {
        None => print!(rt; "-"),
        Some(Value::Plain(value)) => print!(rt; "{value} 0 0"),
        Some(
            Value::Tuplet {
                value,
                actual,
                normal,
            },
        ) => print!(rt; "{value} {actual} {normal}"),
    }
}

// P: a run of one letter, to step and octave.
fn pitch_of(rt: &impl Print, run: &[u8]) -> io::Result<()> {
    let Some(letter) = run.first() else {
        return Ok(());
    };
    match pitch::pitch_of(*letter, run.len()) {
        None => print!(rt; "-"),
        Some(Pitch { step, octave }) => print!(rt; "{step} {octave}"),
    }
}

// A: signs, to the alteration's byte.
fn alteration_of(rt: &impl Print, signs: &[u8]) -> io::Result<()> {
    let alter = signs
        .iter()
        .fold(128, |alter, sign| pitch::altered(alter, *sign));
    print!(rt; "{}", pitch::alter_byte(alter))
}

// B: the deciding token of a bar record, to right and left.
fn barlines_of(rt: &impl Print, token: &[u8]) -> io::Result<()> {
    let found = notation::barline::kern_barline(token);
    print!(rt; "{} {}", u8::from(found.right), u8::from(found.left))
}

// M: note tokens with blanks between, to their beams.
fn beams_of(rt: &impl Print, tokens: &[u8]) -> io::Result<()> {
    let mut state = Beam { held: false };
    for (i, token) in tokens.split_inclusive(|b| *b == b' ').enumerate() {
        let letters = notation::beam::beam_letters(token.strip_suffix(b" ").unwrap_or(token));
        let next = state.next(letters.starts, letters.ends);
        if 0 < i {
            print!(rt; " ")?;
        }
        print!(rt; "{}", u8::from(next.mark))?;
        state = next.state;
    }
    Ok(())
}

// What a token says behind its `*I"` or `*I'`.
fn print_name(rt: &impl Print, token: &[u8]) -> io::Result<()> {
    rt.write_all(token.get(3..).unwrap_or(b""))
}

// I, J: an interpretation, with no note in the bar and after one.
fn interpretation_of(rt: &impl Print, token: &[u8], noted: bool) -> io::Result<()> {
    match interpretation::interpret(token, noted) {
        Ok(Interpretation::Nothing) => print!(rt; "0"),
        Ok(Interpretation::Clef(clef)) => print!(rt; "1 {}", u8::from(clef)),
        Ok(Interpretation::Key(fifths)) => print!(rt; "2 {}", fifths.cast_unsigned()),
        Ok(
            Interpretation::Meter {
                numerator,
                denominator,
            },
        ) => print!(rt; "3 {numerator} {denominator}"),
        Ok(Interpretation::Symbol(symbol)) => print!(rt; "4 {}", u8::from(symbol)),
        Ok(Interpretation::Tempo(tempo)) => print!(rt; "5 {tempo}"),
        Ok(Interpretation::Name) => {
            print!(rt; "6 ")?;
            print_name(rt, token)
        }
        Ok(Interpretation::ShortName) => {
            print!(rt; "7 ")?;
            print_name(rt, token)
        }
        Ok(Interpretation::Mode(mode)) => print!(rt; "8 {}", u8::from(mode)),
        Err(why) => print!(rt; "9 {}", u8::from(Code::from(why))),
    }
}

// R: what stands behind `!!!`, to the field, the key where it is another, and the value.
fn reference_of(rt: &impl Print, record: &[u8]) -> io::Result<()> {
    let found = reference::reference_of(record);
    match found.key {
        Key::Title => print!(rt; "1 ")?,
        Key::Composer => print!(rt; "2 ")?,
        Key::Lyricist => print!(rt; "3 ")?,
        Key::Other => {
            print!(rt; "0 ")?;
            rt.write_all(slices::piece(record, found.key_span.at, found.key_span.len))?;
        }
    }
    print!(rt; "|")?;
    rt.write_all(slices::piece(record, found.value_span.at, found.value_span.len))
}

// N: a notice's number, to its code and reason.
fn notice_of(rt: &impl Print, body: &[u8]) -> io::Result<()> {
    let number = byte_of(body);
    let code = notice::code(number).unwrap_or("");
    let reason = notice::reason(number).unwrap_or("");
    print!(rt; "{code}|{reason}")
}

// S: a part, to the name it has where none is given.
fn name_of(rt: &impl Print, body: &[u8]) -> io::Result<()> {
    let fallback = SpineName::new(byte_of(body));
    rt.write_all(names::part_name(b"", None, fallback.as_bytes()))
}

// H: ticks, divisions, the voice's notes and the buffer's length, 4,096 at most, to the answer, and value, actual and normal of each rest.
fn hole_of(rt: &(impl Print + AllocGlobal), body: &[u8]) -> io::Result<()> {
    let mut numbers = body.splitn(4, |b| *b == b' ').map(number_of);
    let ticks = numbers.next().unwrap_or(0);
    let divisions = numbers.next().unwrap_or(0);
    let notes = numbers.next().unwrap_or(0);
    let room = numbers.next().unwrap_or(0);
    if 4096 < room {
        return Ok(());
    }
    let mut rests = vec![in rt.alloc(); 0u8; room as usize]?;
    match gap::gap_rests(ticks, divisions, notes, &mut rests) {
        Ok(long) => {
            print!(rt; "0 0 {long}")?;
            for rest in rests.chunks_exact(28).take(long / 28) {
                print!(rt; " {} {} {}", rest[3], rest[16], rest[17])?;
            }
            Ok(())
        }
        Err(refusal) => print!(rt; "{} 0 {}", refusal.number(), refusal.figure()),
    }
}

fn answer(rt: &(impl Print + AllocGlobal), request: &[u8]) -> io::Result<()> {
    let Some((kind, body)) = request.split_first() else {
        return Ok(());
    };
    match kind {
        b'U' => print!(rt; "{}", utf8::utf8_length(body)),
        b'R' => reference_of(rt, body),
        b'D' => duration_of(rt, body),
        b'P' => pitch_of(rt, body),
        b'A' => alteration_of(rt, body),
        b'M' => beams_of(rt, body),
        b'B' => barlines_of(rt, body),
        b'I' => interpretation_of(rt, body, false),
        b'J' => interpretation_of(rt, body, true),
        b'N' => notice_of(rt, body),
        b'S' => name_of(rt, body),
        b'H' => hole_of(rt, body),
        _ => print!(rt; "?"),
    }
}

// Stays: `rows` and `tokens` have this main too; one over a closure would be a crate that promises nothing, for no clause says what is read.
fn main(rt: HostRuntime) -> io::Result<()> {
    let alloc = rt.alloc();
    for request in BufReader::new(alloc, rt.reader().take(65536))?.split(alloc, b'\n') {
        answer(&rt, &request?)?;
        println!(rt; "")?;
    }
    Ok(())
}
