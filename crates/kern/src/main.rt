#![tactic(auto)]

// Reads a text of Humdrum **kern from standard input, 32,768 bytes at most, and writes its sheet to standard output; or number, line
// and figure of its refusal, or `long`.
use std::alloc::Global;
use std::io::{self, Read, Write};

// The program over any reader and any writer.
fn answer(alloc: Global, input: impl Read + Drop, output: &mut impl Write) -> io::Result<()> {
    let mut text = Vec::new(alloc);
    input.take(32769).read_to_end(&mut text)?;
    if text.len() > 32768 {
        return writeln!(output, "long");
    }
    let mut out = [0u8; 32768];
    match reader::read(&text, &mut out) {
        Ok(long) => output.write_all(&out[..long]),
        Err(refusal) => writeln!(output, "{refusal}"),
    }
}

fn main(rt: HostRuntime) -> io::Result<()> {
    answer(rt.alloc(), rt.reader(), &mut io::writer(&rt))
}

#[cfg(test)]
mod tests {
    use super::*;
    use refusal::Refusal;
    use std::test::Fail;

    // What is written for a text with empty lines behind it to so many bytes.
    fn written(rt: &HostRuntime, text: &[u8], bytes: u64) -> Result<Vec<u8>, Fail> {
        let mut output = Vec::new(rt.alloc());
        let input = text.chain(io::repeat(b'\n')).take(bytes);
        answer(rt.alloc(), input, &mut output)?;
        Ok(output)
    }

    #[test]
    fn at_the_limit(rt: HostRuntime) -> Result<(), Fail> {
        let text = b"**kern\n4c\n*-\n";
        let sheet = written(&rt, text, 13)?;
        assert_eq!(rt; sheet.len(), 119);
        assert_eq!(rt; written(&rt, text, 32768)?, sheet);
        assert_eq!(rt; written(&rt, text, 32769)?.as_slice(), b"long\n".as_slice());
        let refused = written(&rt, b"**kern\n4c\t4e\n", 32768)?;
        assert_eq!(rt; refused.as_slice(), b"6 2 2\n".as_slice());
        Ok(())
    }

    // Question 1: one byte more than a text may have, and the lent buffer is as it was.
    #[test]
    fn too_long(rt: HostRuntime) -> Result<(), Fail> {
        let text = vec![in rt.alloc(); 0u8; 67108865]?;
        let mut out = *b"unchanged";
        let answer = reader::read(&text, &mut out);
        assert_eq!(rt; answer, Err(Refusal::TooLong { length: 67108865 }));
        assert_eq!(rt; out, *b"unchanged");
        Ok(())
    }
}
