// Meters and mensuration signs.
ghost use Rattle.std.specs.Prelude.{◌≡◌};
ghost use Rattle.interpretation.specs.Number.{byte_number};
ghost use Rattle.interpretation.specs.Meter.{without_plus, meter_from, meter_of, symbol_of, symbol_number};

use crate::{Interpretation, Unsupported, digits};

// The numbers are those of document 01's sheet.
#[derive(Clone, Copy, PartialEq, Eq, Debug)]
pub enum Symbol {
    Common = 1,
    Cut = 2,
}

impl From<Symbol> for u8 {
    ghost from_gives = { λ s r. r ≡ symbol_number s };

    fn from(symbol: Symbol) -> u8 {
        symbol as u8
    }
}

// The number that a text writes, where Rust reads it as a u8: one digit or more, 255 at most.
#[tactic(auto, using(crate::proofs::MeterLaws::bytes))]
fn byte_number(s: &[u8]) -> Option<u8>
    ensures { result ≡ byte_number s.now }
{
    if s.is_empty() {
        return None;
    }
    let n = digits::number_up_to(s, 256)?;
    u8::try_from(n).ok()
}

// A text without the plus that Rust lets stand before a number.
#[tactic(auto, using(crate::proofs::MeterLaws::plus_cut))]
fn without_plus(s: &[u8]) -> &[u8]
    ensures { result.now ≡ without_plus s.now }
{
    s.strip_prefix(b"+").unwrap_or(s)
}

// The meter of the texts before and behind the first `/`.
#[tactic(auto, using(crate::proofs::Exits::exits, crate::proofs::MeterLaws::meters))]
fn meter_from(before: &[u8], behind: &[u8]) -> Result<Interpretation, Unsupported>
    ensures { result ≡ meter_from (byte_number before.now) (byte_number behind.now) }
{
    let numerator = byte_number(before).ok_or(Unsupported::OtherMeter)?;
    let denominator = byte_number(behind).ok_or(Unsupported::OtherMeter)?;
    if numerator == 0 || !denominator.is_power_of_two() {
        return Err(Unsupported::OtherMeter);
    }
    Ok(Interpretation::Meter {
        numerator,
        denominator,
    })
}

// The meter that the text behind `M` gives.
pub fn meter_of(s: &[u8]) -> Result<Interpretation, Unsupported>
    ensures { result ≡ meter_of s.now }
{
    let at = s
        .iter()
        .position(|b| *b == b'/')
        .ok_or(Unsupported::OtherMeter)?;
    meter_from(&s[..at], without_plus(&s[at + 1..]))
}

// The sign that the text behind `met(` gives.
#[tactic(auto, using(crate::proofs::WordLaws::other_symbol, crate::proofs::WordLaws::is_symbol), unfolding(crate::specs::Meter::symbols, crate::specs::Meter::symbol_of, crate::specs::Words::named, slices::specs::Compare::same_bytes))]
pub fn symbol_of(s: &[u8]) -> Result<Interpretation, Unsupported>
    ensures { result ≡ symbol_of s.now }
{
    match s {
        b"c)" => Ok(Interpretation::Symbol(Symbol::Common)),
        b"c|)" => Ok(Interpretation::Symbol(Symbol::Cut)),
        _ => Err(Unsupported::OtherSymbol),
    }
}
