#![tactic(auto)]

// The sheet's records, each written into the unwritten end of a lent buffer, where it fits.
ghost use Rattle.std.specs.Prelude.{◌≡◌, [], ◌∷◌, ◌+◌, ◌*◌, ◌<◌, ◌≤◌, ◌^◌, length, IfSome};
ghost use Rattle.std.proofs.lemmas.List.Edits.{sets};
ghost use Rattle.slices.specs.Store.{stored};
ghost use Rattle.items.specs.Items.{items};
ghost use Rattle.token.specs.Outcome.{note_pitches};
ghost use Rattle.token.specs.Token.{articulations_of, signifiers_of};
ghost use Rattle.lists.specs.Lists.{pitch_bytes, articulation_bytes};
ghost use Rattle.sheet.specs.Record.{NOTICE, span_of, record_bytes};
ghost use Rattle.state.specs.Lay.{laid, behind};
ghost use Rattle.writing.specs.Kept.{note_record, Alone, kept_records, after_kept, notice_of, signifiers_notice, counted};

use notice::Code;
use sheet::{Note, Notice, Pitch, Span, Whole};
use state::Tally;
use token::pitches::Tone;

// A NOTICE's bytes without those of its value, and a NOTE's without its lists.
const NOTICE_BYTES: usize = 24;

const NOTE_BYTES: usize = 28;

// A record that nothing follows, at a place; the place behind it.
pub fn write<W: Whole<N>, const N: usize>(out: &mut [u8], at: usize, whole: W) -> usize
    ensures { (out.new ≡ laid out.old at (W.as_record whole ∷ [])) × (result ≡ behind at (W.as_record whole ∷ [])) }
{
    let k = at.min(out.len());
    sheet::put(&mut out[k..], whole);
    state::past(at, N)
}

// A NOTICE and a token's signifiers behind it, at the start of a buffer.
fn put_signified(out: &mut [u8], notice: Notice, token: &[u8], count: usize)
    requires { count ≡ length (signifiers_of (items token.now)) }
    ensures { out.new ≡ stored out.old (record_bytes (NOTICE notice (signifiers_of (items token.now)))) }
{
    if out.len() < NOTICE_BYTES || out.len() - NOTICE_BYTES < count {
        return;
    }
    sheet::put(out, notice);
    lists::fill_signifiers(&mut out[NOTICE_BYTES..], token);
}

// The same at a place; the place behind it.
fn write_signified(out: &mut [u8], at: usize, notice: Notice, token: &[u8], count: usize) -> usize
    requires { (count ≡ length (signifiers_of (items token.now))) × (count < 2 ^ 32) }
    ensures { (out.new ≡ laid out.old at (NOTICE notice (signifiers_of (items token.now)) ∷ [])) × (result ≡ behind at (NOTICE notice (signifiers_of (items token.now)) ∷ [])) }
{
    let k = at.min(out.len());
    put_signified(&mut out[k..], notice, token, count);
    state::past(at, NOTICE_BYTES + count)
}

// The pitches of a token behind its NOTE, where there are any: the one that it has, if that is known. Inlined, as are the two that call it:
// the pass that measures then makes no record (a chorale took 188 instructions a byte then, and 214 where they are calls).
// Stays: what is asked of `alone` and of the counts is asked of each of the three; a struct of a note and its token would be made for one call.
#[inline(always)]
fn add_pitches(out: &mut [u8], token: &[u8], alone: Option<Tone>, count: usize)
    requires count { count ≡ length (note_pitches token.now) }
    requires room { 28 + count * 3 ≤ length out.old }
    requires alone { IfSome alone (Alone token.now) }
    ensures { out.new ≡ sets out.old 28 (pitch_bytes token.now) }
{
    if count == 0 {
        return;
    }
    let rest = &mut out[NOTE_BYTES..];
    match alone {
        Some(tone) => {
            let pitch = Pitch {
                step: tone.step,
                octave: tone.octave,
                alter: pitch::alter_byte(tone.alter),
            };
            sheet::put(rest, pitch);
        }
        None => lists::fill_pitches(rest, token),
    }
}

// The articulations of a token at a place, where there are any.
fn add_articulations(out: &mut [u8], at: usize, token: &[u8], count: usize)
    requires { (count ≡ length (articulation_bytes token.now)) × (at + count ≤ length out.old) }
    ensures { out.new ≡ sets out.old at (articulation_bytes token.now) }
{
    if count == 0 {
        return;
    }
    lists::fill_articulations(&mut out[at..], token);
}

// A NOTE, the pitches and the articulations of its token behind it, at the start of a buffer.
#[inline(always)]
fn put_noted(out: &mut [u8], note: Note, token: &[u8], alone: Option<Tone>)
    requires pitches { note.pitches ≡ length (note_pitches token.now) }
    requires articulations { note.articulations ≡ length (articulations_of (items token.now)) }
    requires alone { IfSome alone (Alone token.now) }
    ensures { out.new ≡ stored out.old (record_bytes (note_record note token.now)) }
{
    let pitches = note.pitches as usize;
    let articulations = note.articulations as usize;
    let at = NOTE_BYTES + pitches * 3;
    if out.len() < at + articulations {
        return;
    }
    sheet::put(out, note);
    add_pitches(out, token, alone, pitches);
    add_articulations(out, at, token, articulations);
}

// A NOTE with its lists, at a place; the place behind it. `alone` is the one pitch of the token, where it is known that it has no more.
#[inline(always)]
pub fn write_note(out: &mut [u8], at: usize, note: Note, token: &[u8], alone: Option<Tone>) -> usize
    requires pitches { note.pitches ≡ length (note_pitches token.now) }
    requires articulations { note.articulations ≡ length (articulations_of (items token.now)) }
    requires alone { IfSome alone (Alone token.now) }
    ensures { (out.new ≡ laid out.old at (note_record note token.now ∷ [])) × (result ≡ behind at (note_record note token.now ∷ [])) }
{
    let k = at.min(out.len());
    let long = NOTE_BYTES + note.pitches as usize * 3 + note.articulations as usize;
    put_noted(&mut out[k..], note, token, alone);
    state::past(at, long)
}

// The counts once a notice is kept, whose record ends at a place.
fn counted(tally: Tally, at: usize) -> Tally
    requires { tally.notices < 1024 }
    ensures { result ≡ counted tally at }
{
    Tally {
        notices: tally.notices + 1,
        at,
        ..tally
    }
}

// A notice, of which at most 1,024 are kept.
pub fn keep(out: &mut [u8], tally: Tally, notice: Notice) -> Tally
    ensures { (out.new ≡ laid out.old tally.at (kept_records tally notice [])) × (result ≡ after_kept tally notice []) }
{
    let kept = tally.notices;
    let fits = kept < 1024;
    if fits {
        let at = write(out, tally.at, notice);
        return counted(tally, at);
    }
    tally
}

// A notice of any number on a line and a column, with the piece of the text that it preserves.
pub fn notify(
    out: &mut [u8],
    tally: Tally,
    number: u8,
    line: u32,
    column: u16,
    piece: Span,
) -> Tally
    ensures { (out.new ≡ laid out.old tally.at (kept_records tally (notice_of number line column (span_of piece.at piece.len)) [])) × (result ≡ after_kept tally (notice_of number line column (span_of piece.at piece.len)) []) }
{
    let value = sheet::span_of(piece.at, piece.len);
    let notice = Notice {
        number,
        column,
        line,
        value,
        key: Span { at: 0, len: 0 },
    };
    keep(out, tally, notice)
}

// Notice 17 with a token's signifiers.
pub fn notify_signifiers(
    out: &mut [u8],
    tally: Tally,
    line: u32,
    column: u16,
    token: &[u8],
    count: usize,
) -> Tally
    requires { (count ≡ length (signifiers_of (items token.now))) × (count < 2 ^ 32) }
    ensures { (out.new ≡ laid out.old tally.at (kept_records tally (signifiers_notice line column (signifiers_of (items token.now))) (signifiers_of (items token.now)))) × (result ≡ after_kept tally (signifiers_notice line column (signifiers_of (items token.now))) (signifiers_of (items token.now))) }
{
    if tally.notices < 1024 {
        let notice = Notice {
            number: u8::from(Code::UnsupportedSignifier),
            column,
            line,
            value: Span {
                at: 0,
                len: count as u32,
            },
            key: Span { at: 0, len: 0 },
        };
        let at = write_signified(out, tally.at, notice, token, count);
        return counted(tally, at);
    }
    tally
}
