// The lines that fill a staff, for C and Rust.
ghost use Rattle.std.specs.Prelude.{◌≡◌, [], ◌∷◌, ◌≤◌, ◌<◌, ◌^◌, length};
ghost use Rattle.slices.specs.Store.{stored};
ghost use Rattle.holders.specs.Walk.{listed};
ghost use Rattle.staff.specs.Filling.{filling_of};
ghost use Rattle.reading.specs.Text.{answer_of, buffer_of};
ghost use Rattle.account.specs.Reached.{Question8, Question17};
ghost use Rattle.demand.specs.Played.{Played};
ghost use Rattle.kern_ffi.specs.Answer.{number_of, figure_of, three_of, numbers_in, entry_numbers, FiveEntries};

use holders::Holder;

// The numbers of an entry: its column, its voice, and the part's header column.
#[tactic(auto, unfolding(crate::specs::Answer::entry_numbers))]
fn entry_numbers(holder: Holder) -> [u64; 3]
    ensures { result ≡ entry_numbers (holder ∷ []) }
{
    [
        holder.column as u64,
        holder.voice as u64,
        holder.header as u64,
    ]
}

// The entries of a list at the start of a lent array, three numbers each.
fn put_lines(lines: &mut [u64; 15], entries: &[Holder])
    requires { length entries.now ≤ 5 }
    ensures { lines.new ≡ stored lines.old (entry_numbers entries.now) }
{
    for (i, holder) in entries.iter().enumerate() {
        lines[3 * i..3 * i + 3].copy_from_slice(&entry_numbers(*holder));
    }
}

// Reads a text as `kern_read` does. Of one that is refused with 8 `lines` holds what fills the staff: five entries of column, voice and header
// column, the last the branch that finds no voice. On any other outcome `lines` is unchanged.
#[unsafe(no_mangle)]
pub extern "C" fn kern_read_lines(
    text: &[u8],
    out: &mut [u8],
    answer: &mut [u64; 3],
    lines: &mut [u64; 15],
) -> u32
    ensures number { result ≡ number_of (answer_of text.now out.old) }
    ensures answer { answer.new ≡ three_of (answer_of text.now out.old) }
    ensures buffer { out.new ≡ buffer_of text.now out.old }
    ensures played { result ≡ 0 → Played text.now out.new }
    ensures needed { result ≡ 13 → figure_of (answer_of text.now out.old) < 2 ^ 32 }
    ensures stopped { Question8 text.now (numbers_in answer.new) }
    ensures joined { Question17 text.now (numbers_in answer.new) }
    ensures lines { lines.new ≡ stored lines.old (entry_numbers (filling_of text.now)) }
    ensures filled { result ≡ 8 → FiveEntries lines.new }
{
    let explained = staff::read_with_lines(text, out);
    put_lines(lines, explained.lines.as_slice());
    crate::put_answer(answer, explained.answer)
}
