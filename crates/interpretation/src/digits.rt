// The numbers that decimal digits write.
ghost use Rattle.std.specs.Prelude.{◌≡◌};
ghost use Rattle.interpretation.specs.Number.{number_up_to};

// The number that digits write, `most` where it is greater; none where a byte is no digit.
#[tactic(auto, using(crate::proofs::DigitLaws::reading), unfolding(crate::specs::Digits::is_digit))]
pub fn number_up_to(s: &[u8], most: u32) -> Option<u64>
    ensures { result ≡ number_up_to most s.now }
{
    let mut n = 0;
    for d in s {
        if !d.is_ascii_digit() {
            return None;
        }
        n = (n * 10 + u64::from(*d - b'0')).min(u64::from(most));
    }
    Some(n)
}
