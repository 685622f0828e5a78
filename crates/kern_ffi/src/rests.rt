// Holes for C and Rust.
ghost use Rattle.std.specs.Prelude.{◌≡◌};
ghost use Rattle.gap.specs.Answer.{gap_answer, gap_buffer};
ghost use Rattle.gap.specs.Exact.{FilledWith};
ghost use Rattle.kern_ffi.specs.Answer.{number_of, three_of};

// Fills a hole of so many ticks, at so many divisions to the quarter, with hidden rests at the start of a lent buffer, for a voice of so
// many notes. The number of the refusal, or 0; `answer` is then number, line and figure of the refusal, or 0, 0 and the rests' length.
#[unsafe(no_mangle)]
pub extern "C" fn kern_gap_rests(
    ticks: u32,
    divisions: u32,
    notes: u32,
    out: &mut [u8],
    answer: &mut [u64; 3],
) -> u32
    ensures number { result ≡ number_of (gap_answer ticks divisions notes out.old) }
    ensures answer { answer.new ≡ three_of (gap_answer ticks divisions notes out.old) }
    ensures buffer { out.new ≡ gap_buffer ticks divisions notes out.old }
    ensures filled { result ≡ 0 → FilledWith ticks divisions out.old out.new }
{
    match gap::gap_rests(ticks, divisions, notes, out) {
        Ok(long) => {
            *answer = [0, 0, long as u64];
            0
        }
        Err(refusal) => {
            let number = refusal.number();
            *answer = [number as u64, 0, refusal.figure() as u64];
            number as u32
        }
    }
}
