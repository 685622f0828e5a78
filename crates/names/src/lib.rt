#![tactic(auto)]

// The name shown for a part.
ghost use Rattle.std.specs.Prelude.{◌≡◌, ℕ, ◌≤◌, List, take};
ghost use Rattle.names.specs.Names.{digit, spine_name, name_of};

use sheet::Span;
use std::marker::Model;

// The name of a part that the text gives none: `Spine 1` on.
#[derive(Drop)]
pub struct SpineName {
    bytes: [u8; 9],
    len: usize,
}

// Clauses see its bytes.
impl Model for SpineName {
    ghost Value = { List ℕ };

    ghost view = { λ s. take s.len s.bytes };

    ghost invariant = { λ s. s.len ≤ 9 };
}

// The last decimal digit, as ASCII.
fn digit(n: u16) -> u8
    ensures { result ≡ digit n }
{
    b'0' + (n % 10) as u8
}

impl SpineName {
    // The parts are numbered from 0, their names from 1.
    #[tactic(auto, using(std::proofs::lemmas::Bool::Decides::nat_tests), unfolding(crate::specs::Names::decimal, crate::specs::Names::spine_name))]
    pub fn new(part: u8) -> SpineName
        ensures { result ≡ spine_name part }
    {
        let n = u16::from(part) + 1;
        let mut bytes = *b"Spine    ";
        if n < 10 {
            bytes[6] = digit(n);
            return SpineName { bytes, len: 7 };
        }
        if n < 100 {
            bytes[6] = digit(n / 10);
            bytes[7] = digit(n);
            return SpineName { bytes, len: 8 };
        }
        bytes[6] = digit(n / 100);
        bytes[7] = digit(n / 10);
        bytes[8] = digit(n);
        SpineName { bytes, len: 9 }
    }

    pub fn as_bytes(&self) -> &[u8]
        ensures { result.now ≡ self.now }
    {
        &self.bytes[..self.len]
    }
}

// The name of a part: the piece of the text where one is given, also an empty one, else the fallback.
pub fn part_name<'a>(text: &'a [u8], given: Option<Span>, fallback: &'a [u8]) -> &'a [u8]
    ensures { result.now ≡ name_of text.now given fallback.now }
{
    match given {
        Some(name) => slices::piece(text, name.at as usize, name.len as usize),
        None => fallback,
    }
}
