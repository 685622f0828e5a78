#![tactic(auto)]

// The reader for C and Rust. A slice is passed as its address and its length.
pub mod causes;
pub mod rests;

ghost use Rattle.std.specs.Prelude.{◌≡◌, ◌<◌, ◌^◌, length};
ghost use Rattle.slices.specs.Store.{stored};
ghost use Rattle.reading.specs.Text.{answer_of, buffer_of};
ghost use Rattle.account.specs.Reached.{Question8, Question17};
ghost use Rattle.demand.specs.Played.{Played};
ghost use Rattle.reader.specs.Answer.{numbers_of};
ghost use Rattle.notice.specs.Table.{code_of, reason_of};
ghost use Rattle.names.specs.Names.{spine_name, name_of};
ghost use Rattle.kern_ffi.specs.Answer.{number_of, figure_of, three_of, numbers_in, given_name};

use names::SpineName;
use refusal::Refusal;
use sheet::Span;

// The answer's numbers in a lent array: number, line and figure of the refusal, or 0, 0 and the sheet's length. The number is returned.
fn put_answer(answer: &mut [u64; 3], said: Result<usize, Refusal>) -> u32
    ensures number { result ≡ number_of (numbers_of said) }
    ensures answer { answer.new ≡ three_of (numbers_of said) }
{
    match said {
        Ok(length) => {
            *answer = [0, 0, length as u64];
            0
        }
        Err(refusal) => {
            let number = refusal.number();
            let line = refusal.line();
            *answer = [u64::from(number), u64::from(line), refusal.figure() as u64];
            number
        }
    }
}

// Reads a text into a lent buffer. The number of the refusal, or 0; `answer` is then number, line and figure of the refusal, or 0, 0 and
// the sheet's length.
#[unsafe(no_mangle)]
pub extern "C" fn kern_read(text: &[u8], out: &mut [u8], answer: &mut [u64; 3]) -> u32
    ensures number { result ≡ number_of (answer_of text.now out.old) }
    ensures answer { answer.new ≡ three_of (answer_of text.now out.old) }
    ensures buffer { out.new ≡ buffer_of text.now out.old }
    ensures played { result ≡ 0 → Played text.now out.new }
    ensures needed { result ≡ 13 → figure_of (answer_of text.now out.old) < 2 ^ 32 }
    ensures stopped { Question8 text.now (numbers_in answer.new) }
    ensures joined { Question17 text.now (numbers_in answer.new) }
{
    let said = reader::read(text, out);
    put_answer(answer, said)
}

// The code of a notice, put at the start of a lent buffer where it fits; its length, 0 for a number that is no notice.
#[unsafe(no_mangle)]
pub extern "C" fn kern_notice_code(number: u8, out: &mut [u8]) -> usize
    ensures length { result ≡ length (code_of number) }
    ensures buffer { out.new ≡ stored out.old (code_of number) }
{
    let code = notice::code(number).unwrap_or("");
    slices::put(out, code.as_bytes());
    code.len()
}

// The reason of a notice, likewise.
#[unsafe(no_mangle)]
pub extern "C" fn kern_notice_reason(number: u8, out: &mut [u8]) -> usize
    ensures length { result ≡ length (reason_of number) }
    ensures buffer { out.new ≡ stored out.old (reason_of number) }
{
    let reason = notice::reason(number).unwrap_or("");
    slices::put(out, reason.as_bytes());
    reason.len()
}

// The name of a part, likewise: a piece of the text where the sheet says that one is given, else `Spine 1` on.
#[unsafe(no_mangle)]
pub extern "C" fn kern_part_name(
    text: &[u8],
    given: u8,
    at: u32,
    len: u32,
    part: u8,
    out: &mut [u8],
) -> usize
    ensures length { result ≡ length (name_of text.now (given_name given at len) (spine_name part)) }
    ensures buffer { out.new ≡ stored out.old (name_of text.now (given_name given at len) (spine_name part)) }
{
    let given = if given == 0 {
        None
    } else {
        Some(Span { at, len })
    };
    let fallback = SpineName::new(part);
    let name = names::part_name(text, given, fallback.as_bytes());
    slices::put(out, name);
    name.len()
}
