#![tactic(auto)]

// The lists of a token, written at the start of a buffer.
ghost use Rattle.std.specs.Prelude.{◌≡◌, false, [], ◌∷◌, ◌+◌, ◌≤◌, length};
ghost use Rattle.std.proofs.lemmas.List.Edits.{sets};
ghost use Rattle.slices.specs.Store.{stored};
ghost use Rattle.items.specs.Items.{items};
ghost use Rattle.token.specs.Token.{rest_of, articulations_in, begun, signed};
ghost use Rattle.lists.specs.Lists.{pitch_bytes, articulation_bytes, signifier_bytes, sound_bytes};

use pitch::Pitch;
use token::pitches::Tone;

// The articulation of a byte, at k; the place behind it.
fn put_articulation(out: &mut [u8], k: usize, b: u8) -> usize
    requires { k + length (articulations_in (b ∷ [])) ≤ length out.old }
    ensures { (out.new ≡ sets out.old k (articulations_in (b ∷ []))) × (result ≡ k + length (articulations_in (b ∷ []))) }
{
    match scan::articulation(b) {
        Some(a) => {
            out[k] = a;
            k + 1
        }
        None => k,
    }
}

// The articulations of a token, for which there is room; no digit, letter of a step or blank is one. A call, as `fill_pitches` is: few tokens
// come here, and any other is read with more registers.
#[inline(never)]
pub fn fill_articulations(out: &mut [u8], token: &[u8])
    requires { length (articulation_bytes token.now) ≤ length out.old }
    ensures { out.new ≡ stored out.old (articulation_bytes token.now) }
{
    let mut k = 0;
    for b in token {
        k = put_articulation(out, k, *b);
    }
}

// The articulations of a token, where they fit.
// Stays: no plainer: it and `put_signifiers` differ in the count and the function called; one over both would take these two.
pub fn put_articulations(out: &mut [u8], token: &[u8])
    ensures { out.new ≡ stored out.old (articulation_bytes token.now) }
{
    let scan = scan::scan_token(token);
    if scan.articulations <= out.len() {
        fill_articulations(out, token);
    }
}

// Bytes at k; the place behind them.
fn put_run(out: &mut [u8], k: usize, run: &[u8]) -> usize
    requires { k + length run.now ≤ length out.old }
    ensures { (out.new ≡ sets out.old k run.now) × (result ≡ k + length run.now) }
{
    slices::put(&mut out[k..], run);
    k + run.len()
}

// The signifiers of a token, for which there is room.
#[tactic(auto, using(items::proofs::NextLaws::ends))]
pub fn fill_signifiers(out: &mut [u8], token: &[u8])
    requires { length (signifier_bytes token.now) ≤ length out.old }
    ensures { out.new ≡ stored out.old (signifier_bytes token.now) }
{
    let mut sounding = false;
    let mut k = 0;
    let mut i = 0;
    // Stays: no plainer: a turn goes on behind an item; `items::next_item` gives a length its value, for which no one asks here.
    while i < token.len() {
        let b = token[i];
        if items::is_digit(b) {
            i = items::length_end(token, i);
            continue;
        }
        if items::is_letter(b) {
            let end = items::letter_end(token, i);
            if scan::fits(sounding, b, end - i) {
                sounding = true;
                i = end;
                continue;
            }
            out[k] = b;
            k += 1;
            i = end;
            continue;
        }
        if b == b' ' {
            sounding = false;
            i += 1;
            continue;
        }
        if scan::is_unknown(b) {
            let end = scan::unknown_end(token, i);
            k = put_run(out, k, &token[i..end]);
            i = end;
            continue;
        }
        if scan::passes(sounding, b) {
            i += 1;
            continue;
        }
        out[k] = b;
        k += 1;
        i += 1;
    }
}

// The signifiers of a token, where they fit.
pub fn put_signifiers(out: &mut [u8], token: &[u8])
    ensures { out.new ≡ stored out.old (signifier_bytes token.now) }
{
    let scan = scan::scan_token(token);
    if scan.signifiers <= out.len() {
        fill_signifiers(out, token);
    }
}

// The three bytes of a pitch, if there is one, at k; the place behind them.
fn put_sound(out: &mut [u8], k: usize, s: Option<Tone>) -> usize
    requires { k + length (sound_bytes s) ≤ length out.old }
    ensures { (out.new ≡ sets out.old k (sound_bytes s)) × (result ≡ k + length (sound_bytes s)) }
{
    match s {
        None => k,
        Some(t) => put_run(out, k, &[t.step, t.octave, pitch::alter_byte(t.alter)]),
    }
}

// The sub-token's pitch after a run of letters.
fn begin(s: Option<Tone>, p: Option<Pitch>) -> Option<Tone>
    ensures { result ≡ begun s p }
{
    match (s, p) {
        (None, Some(p)) => Some(Tone {
            step: p.step,
            octave: p.octave,
            alter: 128,
        }),
        _ => s,
    }
}

// The sub-token's pitch after a mark.
fn sign(s: Option<Tone>, b: u8) -> Option<Tone>
    ensures { result ≡ signed s b }
{
    let t = s?;
    Some(Tone {
        alter: pitch::altered(t.alter, b),
        ..t
    })
}

// The pitches of a token that is no rest, for which there is room.
// Stays: no plainer: it shares with `fill_signifiers` the tests of an item's kind alone; one walk would take a trait of five methods.
#[inline(never)]
#[tactic(auto, using(items::proofs::NextLaws::ends))]
pub fn fill_pitches(out: &mut [u8], token: &[u8])
    requires { (rest_of (items token.now) ≡ false) × (length (pitch_bytes token.now) ≤ length out.old) }
    ensures { out.new ≡ stored out.old (pitch_bytes token.now) }
{
    let mut sound = None;
    let mut k = 0;
    let mut i = 0;
    // Stays: no plainer: a turn goes on behind an item; `items::next_item` gives a length its value, for which no one asks here.
    while i < token.len() {
        let b = token[i];
        if items::is_digit(b) {
            i = items::length_end(token, i);
            continue;
        }
        if items::is_letter(b) {
            let end = items::letter_end(token, i);
            sound = begin(sound, pitch::pitch_of(b, end - i));
            i = end;
            continue;
        }
        if b == b' ' {
            k = put_sound(out, k, sound);
            sound = None;
            i += 1;
            continue;
        }
        if scan::is_unknown(b) {
            i = scan::unknown_end(token, i);
            continue;
        }
        sound = sign(sound, b);
        i += 1;
    }
    put_sound(out, k, sound);
}

// The pitches of a token's note, where they fit.
pub fn put_pitches(out: &mut [u8], token: &[u8])
    ensures { out.new ≡ stored out.old (pitch_bytes token.now) }
{
    let scan = scan::scan_token(token);
    if !scan.rest && scan.pitches <= out.len() / 3 {
        fill_pitches(out, token);
    }
}
