// Tempos.
ghost use Rattle.std.specs.Prelude.{◌≡◌, ◌≤◌, ◌<◌, ◌^◌, ◌+◌, ◌*◌};
ghost use Rattle.interpretation.specs.Tempo.{rounded, tempo_from, tempo_of};

use crate::{Interpretation, Unsupported, digits};

// The tempo of n parts of a unit.
#[tactic(auto, unfolding(crate::specs::Tempo::rounded))]
fn round(n: u64, unit: u64) -> Result<Interpretation, Unsupported>
    requires { (n < 2 ^ 48) × (0 < unit) × (unit ≤ 1000000000) }
    ensures { result ≡ rounded n unit }
{
    if n < unit || 65535 * unit < n {
        return Err(Unsupported::OtherTempo);
    }
    Ok(Interpretation::Tempo(((2 * n + unit) / (2 * unit)) as u16))
}

// The tempo of the digits before and behind the point.
#[tactic(auto, using(crate::proofs::Exits::left, crate::proofs::TempoLaws::tempos))]
fn tempo_from(whole: &[u8], fraction: &[u8]) -> Result<Interpretation, Unsupported>
    ensures { result ≡ tempo_from whole.now fraction.now }
{
    if 9 < fraction.len() {
        return Err(Unsupported::OtherTempo);
    }
    let units = digits::number_up_to(whole, 65536).ok_or(Unsupported::OtherTempo)?;
    let parts = digits::number_up_to(fraction, 1000000000).ok_or(Unsupported::OtherTempo)?;
    let unit = 10u64.pow(fraction.len() as u32);
    round(units * unit + parts, unit)
}

// The tempo that the text behind `MM` gives.
pub fn tempo_of(s: &[u8]) -> Result<Interpretation, Unsupported>
    ensures { result ≡ tempo_of s.now }
{
    match s.iter().position(|b| *b == b'.') {
        Some(at) => tempo_from(&s[..at], &s[at + 1..]),
        None => tempo_from(s, b""),
    }
}
