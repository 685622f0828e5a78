#![tactic(auto)]

// A hole of so many ticks, written as hidden rests.
ghost use Rattle.std.specs.Prelude.{◌≡◌, ℕ, ◌+◌, ◌-◌, ◌≤◌, ◌<◌, IfErr, OnOk, length};
ghost use Rattle.slices.specs.Store.{stored};
ghost use Rattle.sheet.specs.Record.{note_bytes};
ghost use Rattle.gap.specs.Values.{ticks_of, triplet_by, tuplet_by, plain_by};
ghost use Rattle.gap.specs.Next.{or_else, longest, shortest_below, tuplet_of, next_rest};
ghost use Rattle.gap.specs.Fill.{rest_note, fill_from, fill_hole, counted, Filling, Taken};
ghost use Rattle.gap.specs.Answer.{number_of, figure_of, numbers_of, laid, gap_answer, gap_buffer};
ghost use Rattle.gap.specs.Exact.{FilledWith};

use sheet::Note;

// Why a hole is turned away.
#[derive(Clone, Copy, PartialEq, Eq, Debug)]
pub enum Refusal {
    // The buffer is too short for the rests, which need so many bytes.
    Short(usize),
    // Some ticks remain and no value fits them.
    NoValue,
    // The voice would pass 50,000 notes.
    Full,
}

impl Refusal {
    // The refusal's number in the sheet's numbering.
    pub fn number(self) -> usize
        ensures { result ≡ number_of self }
    {
        match self {
            Refusal::Short(_) => 13,
            Refusal::NoValue => 14,
            Refusal::Full => 15,
        }
    }

    // The length that is needed, where that is why.
    pub fn figure(self) -> usize
        ensures { result ≡ figure_of self }
    {
        match self {
            Refusal::Short(long) => long,
            Refusal::NoValue | Refusal::Full => 0,
        }
    }
}

// A rest with the ticks that it takes: a value, in a tuplet unless actual and normal are 0.
// Stays: the 0, 0 of no tuplet are the NOTE's own bytes, which a rest becomes; a `Value` here would only be taken apart again.
#[derive(Clone, Copy, PartialEq, Eq, Debug)]
struct Rest {
    value: u8,
    actual: u8,
    normal: u8,
    ticks: u32,
}

// A time: so many ticks, at so many divisions to the quarter.
#[derive(Clone, Copy, PartialEq, Eq, Debug)]
struct Time {
    divisions: u32,
    ticks: u32,
}

// What is left of a hole, and how many more notes its voice may have.
#[derive(Clone, Copy, PartialEq, Eq, Debug)]
struct Hole {
    left: Time,
    room: u32,
}

impl Time {
    // The ticks of a value; None where they are no whole number from 1 up to 2^32 - 1.
    // Stays: that a value is below 10 stands in four contracts; a type that says it would be made of each number of the ranges 0..10 below.
    #[tactic(auto, using(crate::proofs::ValueLaws::ticks))]
    fn ticks_of(self, value: u8) -> Option<u32>
        requires { value < 10 }
        ensures { result ≡ ticks_of self.divisions value }
    {
        let all = u64::from(self.divisions) * 16;
        let unit = 1u64 << value;
        if all == 0 || all % unit != 0 {
            return None;
        }
        u32::try_from(all / unit).ok()
    }

    // A value in a triplet that lasts all the ticks.
    #[tactic(auto, unfolding(crate::specs::Values::triplet_by))]
    fn triplet_by(self, value: u8) -> Option<Rest>
        requires { value < 10 }
        ensures { result ≡ triplet_by self.divisions self.ticks value }
    {
        let base = self.ticks_of(value)?;
        if u64::from(base) * 2 != u64::from(self.ticks) * 3 {
            return None;
        }
        Some(Rest {
            value,
            actual: 3,
            normal: 2,
            ticks: self.ticks,
        })
    }

    // A longer value in a tuplet that lasts all the ticks.
    #[tactic(auto, using(duration::proofs::Divisors::gcd_positive), unfolding(crate::specs::Values::tuplet_by))]
    fn tuplet_by(self, value: u8) -> Option<Rest>
        requires { value < 10 }
        ensures { result ≡ tuplet_by self.divisions self.ticks value }
    {
        let base = self.ticks_of(value)?;
        if base <= self.ticks {
            return None;
        }
        let divisor = duration::gcd(base, self.ticks);
        let actual = u8::try_from(base / divisor).ok()?;
        let normal = u8::try_from(self.ticks / divisor).ok()?;
        Some(Rest {
            value,
            actual,
            normal,
            ticks: self.ticks,
        })
    }

    // A value that fits.
    #[tactic(auto, unfolding(crate::specs::Values::plain_by))]
    fn plain_by(self, value: u8) -> Option<Rest>
        requires { value < 10 }
        ensures { result ≡ plain_by self.divisions self.ticks value }
    {
        let base = self.ticks_of(value)?;
        if self.ticks < base {
            return None;
        }
        Some(Rest {
            value,
            actual: 0,
            normal: 0,
            ticks: base,
        })
    }

    // The longest value that serves in a triplet.
    fn triplet(self) -> Option<Rest>
        ensures { result ≡ longest (triplet_by self.divisions self.ticks) }
    {
        (0..10).find_map(|value| self.triplet_by(value))
    }

    // The shortest value that serves in a tuplet, of so many, the longest values first.
    fn tuplet(self, values: u8) -> Option<Rest>
        requires { values ≤ 10 }
        ensures { result ≡ shortest_below (tuplet_by self.divisions self.ticks) values }
    {
        (0..values).rev().find_map(|value| self.tuplet_by(value))
    }

    // The longest value that fits.
    #[tactic(auto, using(crate::proofs::SearchLaws::searching))]
    fn plain(self) -> Option<Rest>
        ensures { result ≡ longest (plain_by self.divisions self.ticks) }
    {
        let mut value = 0;
        // Stays: a rule of the project asks for a loop that yields the chosen value by break.
        let rest = loop {
            if value == 10 {
                return None;
            }
            if let Some(rest) = self.plain_by(value) {
                break rest;
            }
            value += 1;
        };
        Some(rest)
    }

    // One tuplet, else the longest value that fits. That one is found first: it is the answer where it lasts just the ticks, and else a
    // tuplet is of a longer one. A call: each walk then keeps its rest in registers.
    #[inline(never)]
    fn tuplet_or_plain(self) -> Option<Rest>
        ensures { result ≡ or_else (tuplet_of self.divisions self.ticks) (longest (plain_by self.divisions self.ticks)) }
    {
        match self.plain() {
            None => self.tuplet(10),
            Some(rest) if rest.ticks == self.ticks => Some(rest),
            Some(rest) => self.tuplet(rest.value).or(Some(rest)),
        }
    }

    // The next rest: a triplet, else one tuplet, else the longest value that fits.
    #[inline(always)]
    fn search_rest(self) -> Option<Rest>
        ensures { result ≡ next_rest self.divisions self.ticks }
    {
        self.triplet().or_else(|| self.tuplet_or_plain())
    }

    // The same; of more ticks than a longa has, no value but the longa serves.
    #[inline(always)]
    #[tactic(auto, using(crate::proofs::LongaLaws::next_longa))]
    fn next_rest(self) -> Option<Rest>
        ensures { result ≡ next_rest self.divisions self.ticks }
    {
        match self.ticks_of(0) {
            Some(longa) if longa < self.ticks => Some(Rest {
                value: 0,
                actual: 0,
                normal: 0,
                ticks: longa,
            }),
            _ => self.search_rest(),
        }
    }
}

impl Hole {
    // Takes out the longas that a hole of more ticks begins with, as many as its voice has room for; how many.
    #[inline(always)]
    fn take_longas(&mut self) -> usize
        ensures same { counted result (fill_hole self.new) ≡ counted 0 (fill_hole self.old) }
        ensures few { result + self.new.room ≡ self.old.room }
    {
        match self.left.ticks_of(0) {
            Some(longa) if longa < self.left.ticks => {
                let n = self.room.min((self.left.ticks - 1) / longa);
                self.room -= n;
                self.left.ticks -= n * longa;
                n as usize
            }
            _ => 0,
        }
    }

    // Takes the next rest out of the hole; None where it is filled. Inlined, as are the three above: a hole of 893 rests takes 27,000
    // instructions so, and 61,000 where they are left to the compiler.
    #[inline(always)]
    #[tactic(auto, using(crate::proofs::FillLaws::holes))]
    fn take(&mut self) -> Result<Option<Rest>, Refusal>
        ensures { Taken self.old self.new result }
    {
        if self.left.ticks == 0 {
            return Ok(None);
        }
        let Some(rest) = self.left.next_rest() else {
            return Err(Refusal::NoValue);
        };
        if self.room == 0 {
            return Err(Refusal::Full);
        }
        self.room -= 1;
        self.left.ticks -= rest.ticks;
        Ok(Some(rest))
    }
}

// How many rests fill a hole: one with no ticks none, and of the others the longas are counted at once.
#[tactic(auto, using(crate::proofs::FillLaws::hole_done))]
fn count_rests(mut hole: Hole) -> Result<usize, Refusal>
    ensures { result ≡ counted 0 (fill_from hole.room hole.left.divisions hole.left.ticks) }
{
    if hole.left.ticks == 0 {
        return Ok(0);
    }
    let mut n = hole.take_longas();
    while hole.take()?.is_some() {
        n += 1;
    }
    Ok(n)
}

// A hidden rest.
fn put_rest(out: &mut [u8], rest: Rest)
    ensures { out.new ≡ stored out.old (note_bytes (rest_note rest)) }
{
    let note = Note {
        part: 0,
        voice: 0,
        value: rest.value,
        bar: 0,
        line: 0,
        column: 0,
        dots: 0,
        flags: 129,
        actual: rest.actual,
        normal: rest.normal,
        beam: 0,
        pitches: 0,
        articulations: 0,
    };
    sheet::put(out, note);
}

// The rests that fill a hole, into a buffer that has room for them.
#[tactic(auto, using(slices::proofs::StoreLaws::stored_tail, sheet::proofs::NoteLaws::note_length_lem, crate::proofs::FillLaws::writing))]
fn write_rests(mut hole: Hole, out: &mut [u8])
    requires { Filling hole.room hole.left.divisions hole.left.ticks out.old }
    ensures { out.new ≡ laid (fill_from hole.room hole.left.divisions hole.left.ticks) out.old }
{
    let mut at = 0;
    while let Ok(Some(rest)) = hole.take() {
        put_rest(&mut out[at..], rest);
        at += 28;
    }
}

// Fills a hole of so many ticks, at so many divisions to the quarter, with hidden rests at the start of a lent buffer; `notes` is how
// many notes the voice has. The length of the rests.
#[tactic(auto, using(crate::proofs::AnswerLaws::few_bytes, crate::proofs::AnswerLaws::can_fill))]
pub fn gap_rests(ticks: u32, divisions: u32, notes: u32, out: &mut [u8]) -> Result<usize, Refusal>
    ensures answer { numbers_of result ≡ gap_answer ticks divisions notes out.old }
    ensures buffer { out.new ≡ gap_buffer ticks divisions notes out.old }
    ensures numbered { IfErr result (λ e. (13 ≤ number_of e) × (number_of e ≤ 15)) }
    ensures filled { OnOk result (FilledWith ticks divisions out.old out.new) }
{
    let hole = Hole {
        left: Time { divisions, ticks },
        room: 50000u32.saturating_sub(notes),
    };
    let long = count_rests(hole)? * 28;
    if out.len() < long {
        return Err(Refusal::Short(long));
    }
    write_rests(hole, out);
    Ok(long)
}
