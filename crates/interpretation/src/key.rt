// Key signatures and key designations.
ghost use Rattle.std.specs.Prelude.{◌≡◌};
ghost use Rattle.interpretation.specs.Key.{signature_of, key_of, tonic_mode, mode_of, mode_number};

use crate::{Interpretation, Unsupported};

// The numbers are those of document 01's sheet.
#[derive(Clone, Copy, PartialEq, Eq, Debug)]
pub enum Mode {
    Major = 0,
    Minor = 1,
}

impl From<Mode> for u8 {
    ghost from_gives = { λ m r. r ≡ mode_number m };

    fn from(mode: Mode) -> u8 {
        mode as u8
    }
}

// The key signature that stands between the brackets: the first steps of one of two orders.
#[tactic(auto, using(crate::proofs::KeyLaws::steps_odd))]
fn signature(s: &[u8]) -> Result<Interpretation, Unsupported>
    ensures { result ≡ signature_of s.now }
{
    if s.len() % 2 != 0 {
        return Err(Unsupported::OtherKey);
    }
    if b"f#c#g#d#a#e#b#".starts_with(s) {
        return Ok(Interpretation::Key((s.len() / 2) as i8));
    }
    if b"b-e-a-d-g-c-f-".starts_with(s) {
        return Ok(Interpretation::Key(-((s.len() / 2) as i8)));
    }
    Err(Unsupported::OtherKey)
}

// The key signature that the text behind `k[` gives.
#[tactic(auto, using(crate::proofs::Exits::exits, crate::proofs::KeyLaws::keys))]
pub fn key_of(s: &[u8]) -> Result<Interpretation, Unsupported>
    ensures { result ≡ key_of s.now }
{
    let steps = s.strip_suffix(b"]").ok_or(Unsupported::OpenKey)?;
    signature(steps)
}

// The mode that a key designation gives: a tonic and a colon.
#[tactic(auto, using(crate::proofs::KeyLaws::modes))]
pub fn mode_of(body: &[u8]) -> Result<Interpretation, Unsupported>
    ensures { result ≡ mode_of body.now }
{
    match body {
        [tonic, .., b':'] if body.len() <= 4 => tonic_mode(*tonic),
        _ => Err(Unsupported::Other),
    }
}

// The mode that a tonic's first letter gives.
#[tactic(auto, unfolding(crate::specs::Key::tonic_mode))]
fn tonic_mode(b: u8) -> Result<Interpretation, Unsupported>
    ensures { result ≡ tonic_mode b }
{
    match b {
        b'A'..=b'G' => Ok(Interpretation::Mode(Mode::Major)),
        b'a'..=b'g' => Ok(Interpretation::Mode(Mode::Minor)),
        _ => Err(Unsupported::Other),
    }
}
