#![tactic(auto)]

// A token of a kern line: its notices and its NOTE.
ghost use Rattle.std.specs.Prelude.{◌≡◌, List, ℕ, ◌^◌, ◌≤◌, ◌<◌, length};
ghost use Rattle.notation.specs.Beam.{beam_number};
ghost use Rattle.notice.specs.Number.{number_of};
ghost use Rattle.token.specs.Scan.{scan_of};
ghost use Rattle.items.specs.Items.{items};
ghost use Rattle.token.specs.Token.{articulations_of};
ghost use Rattle.token.specs.Outcome.{reported, note_pitches};
ghost use Rattle.plain.specs.Plain.{PlainToken};
ghost use Rattle.reading.specs.Notices.{notify, span_of_token};
ghost use Rattle.reading.specs.Notes.{flags_of, signify, add_note};
ghost use Rattle.state.specs.View.{state_of, landed, told};
ghost use Rattle.notes.specs.Beam.{beam_by, sounded_by};
ghost use Rattle.notes.specs.Plain.{PlainWritten};
ghost use Rattle.notes.specs.Spot.{token_at, token_step, note_at, with_note, Kept, Noticed, inferred_notice, Sited};

use duration::Value;
use notation::beam::Beam;
use notice::Code;
use plain::Plain;
use reading::Part;
use refusal::Refusal;
use sheet::Span;
use state::Tally;
use token::outcome::Note;
use token::scan::Scan;

// Where a token stands: its part and voice, line and column from 1, and its offset in the text.
// Stays: no plainer: a token and its spot are two, as in the definitions; `Sited` ties both to counts, and a token's length to its offset.
#[derive(Clone, Copy, PartialEq, Eq, Debug)]
pub struct Spot {
    pub part: usize,
    pub voice: usize,
    pub line: u32,
    pub column: u16,
    pub at: u32,
}

// ---- the beam

// A note in a voice of a part: its beam's number. The part keeps the voice's beam, and that it has a note in the bar.
// Stays: `voice < 4`: a voice is a number in the row's cells, in the sheet and here, an index; an enum of four would be turned into one each time.
fn sound(part: &mut Part, voice: usize, starts: bool, ends: bool) -> u8
    requires { voice < 4 }
    ensures { (part.new ≡ sounded_by part.old voice starts ends) × (result ≡ beam_number (beam_by part.old voice starts ends).mark) }
{
    let held = &mut part.beams[voice];
    let next = Beam { held: *held }.next(starts, ends);
    *held = next.state.held;
    part.noted = true;
    u8::from(next.mark)
}

// ---- the NOTE

// The flags of a note.
fn flags_of(n: Note) -> u8
    ensures { result ≡ flags_of n }
{
    u8::from(n.rest)
        + 2 * u8::from(n.ties)
        + 4 * u8::from(n.tied)
        + 8 * u8::from(n.slurs)
        + 16 * u8::from(n.slurred)
        + 32 * u8::from(0 < n.grace)
        + 64 * u8::from(n.grace == 2)
}

// The fixed bytes of a NOTE, behind so many closings.
fn note_at(n: Note, spot: Spot, bars: u32, beam: u8) -> sheet::Note
    requires { ((n.pitches < 2 ^ 32) × (n.articulations < 2 ^ 32)) × ((spot.part < 256) × ((spot.voice < 4) × (bars ≤ 100000))) }
    ensures { result ≡ note_at n spot bars beam }
{
    let flags = flags_of(n);
    sheet::Note {
        part: spot.part as u8,
        voice: spot.voice as u8,
        value: n.value,
        bar: bars + 1,
        line: spot.line,
        column: spot.column,
        dots: n.dots,
        flags,
        actual: n.actual,
        normal: n.normal,
        beam,
        pitches: n.pitches as u32,
        articulations: n.articulations as u32,
    }
}

// The counts with one note more, whose record ends at a place.
// Stays: no plainer: as `counted` of writing, which counts notices; one over both would take the field to count in.
fn with_note(tally: Tally, at: usize) -> Tally
    requires { tally.notes < 100000 }
    ensures { result ≡ with_note tally at }
{
    Tally {
        notes: tally.notes + 1,
        at,
        ..tally
    }
}

// ---- one token

// A notice that preserves the token.
fn notify_token(token: &[u8], what: Code, spot: Spot, tally: Tally, out: &mut [u8]) -> Tally
    requires { length token.now < 2 ^ 27 }
    ensures { Noticed tally result out.old out.new (notify (number_of what) spot.line spot.column (span_of_token (token_at spot token.now))) }
{
    writing::notify(
        out,
        tally,
        u8::from(what),
        spot.line,
        spot.column,
        Span {
            at: spot.at,
            len: token.len() as u32,
        },
    )
}

// Notice 20 of a token whose length was inferred.
fn notify_inferred(token: &[u8], inferred: bool, spot: Spot, tally: Tally, out: &mut [u8]) -> Tally
    requires { length token.now < 2 ^ 27 }
    ensures { Noticed tally result out.old out.new (inferred_notice inferred token.now spot) }
{
    if inferred {
        return notify_token(token, Code::InferredDuration, spot, tally, out);
    }
    tally
}

// Notice 17 of a token that reports signifiers.
fn signify(token: &[u8], scan: Scan, spot: Spot, tally: Tally, out: &mut [u8]) -> Tally
    requires { (scan ≡ scan_of token.now) × (length token.now < 2 ^ 27) }
    ensures { Noticed tally result out.old out.new (signify (reported token.now) spot.line spot.column) }
{
    if scan.bad {
        return tally;
    }
    if scan.signifiers == 0 {
        return tally;
    }
    writing::notify_signifiers(out, tally, spot.line, spot.column, token, scan.signifiers)
}

// A note, at most the 100,000th: notice 20 where its length was inferred, and its NOTE.
fn add_note(
    token: &[u8],
    n: Note,
    spot: Spot,
    parts: &mut [Part; 256],
    tally: Tally,
    out: &mut [u8],
) -> Result<Tally, Refusal>
    requires { Sited token.now spot tally × ((n.pitches ≡ length (note_pitches token.now)) × (n.articulations ≡ length (articulations_of (items token.now)))) }
    ensures { ((cells : List ℕ) → told result cells parts.new out.new ≡ landed (add_note spot.part spot.voice spot.line spot.column (token_at spot token.now) n (state_of cells parts.old tally)) out.old tally.at) × Kept tally result }
{
    let room = tally.notes < 100000;
    if room {
        let t = notify_inferred(token, n.inferred, spot, tally, out);
        let letters = notation::beam::beam_letters(token);
        let part = &mut parts[spot.part];
        let beam = sound(part, spot.voice, letters.starts, letters.ends);
        let note = note_at(n, spot, t.bars, beam);
        let at = writing::write_note(out, t.at, note, token, None);
        return Ok(with_note(t, at));
    }
    Err(Refusal::ManyNotes { line: spot.line })
}

// The notices and the NOTE of a token of a kern line; `inferred` is the value that its peers give, None where they give none.
pub fn read_token(
    token: &[u8],
    inferred: Option<Value>,
    spot: Spot,
    parts: &mut [Part; 256],
    tally: Tally,
    out: &mut [u8],
) -> Result<Tally, Refusal>
    requires { Sited token.now spot tally }
    ensures { ((cells : List ℕ) → told result cells parts.new out.new ≡ landed (token_step token.now inferred spot (state_of cells parts.old tally)) out.old tally.at) × Kept tally result }
{
    if lines::is_null(token) {
        return Ok(tally);
    }
    let scan = scan::scan_token(token);
    let t = signify(token, scan, spot, tally, out);
    match scan::outcome::kern_token(scan, inferred) {
        Ok(None) => Ok(t),
        Ok(Some(n)) => add_note(token, n, spot, parts, t, out),
        Err(why) => Ok(notify_token(token, Code::from(why), spot, t, out)),
    }
}

// The NOTE of a token of the usual shape, at a place; the place behind it.
pub fn write_plain(
    token: &[u8],
    p: Plain,
    spot: Spot,
    parts: &mut [Part; 256],
    tally: Tally,
    at: usize,
    out: &mut [u8],
) -> usize
    requires { Sited token.now spot tally × PlainToken token.now p }
    ensures { PlainWritten token.now p spot tally at parts.old out.old parts.new out.new result }
{
    let beam = sound(&mut parts[spot.part], spot.voice, p.starts, p.ends);
    let note = note_at(p.note, spot, tally.bars, beam);
    writing::write_note(out, at, note, token, Some(p.tone))
}
