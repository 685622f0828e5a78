// Clefs.
ghost use Rattle.std.specs.Prelude.{◌≡◌};
ghost use Rattle.interpretation.specs.Clef.{clef_number, clef_of};

use crate::{Interpretation, Unsupported};

// A clef by its sign and line: `v` an octave lower, `^` an octave higher. The numbers are those of document 01's sheet.
#[derive(Clone, Copy, PartialEq, Eq, Debug)]
pub enum Clef {
    Treble = 1,
    TrebleBelow = 2,
    TrebleAbove = 3,
    Bass = 4,
    BassBelow = 5,
    Soprano = 6,
    MezzoSoprano = 7,
    Alto = 8,
    Tenor = 9,
    Baritone = 10,
    Percussion = 11,
}

impl From<Clef> for u8 {
    ghost from_gives = { λ c r. r ≡ clef_number c };

    fn from(clef: Clef) -> u8 {
        clef as u8
    }
}

// The clef that the text behind `clef` names.
#[tactic(auto, using(crate::proofs::WordLaws::other_clef, crate::proofs::WordLaws::is_clef), unfolding(crate::specs::Clef::clefs, crate::specs::Clef::clef_of, crate::specs::Words::named, slices::specs::Compare::same_bytes))]
pub fn clef_of(s: &[u8]) -> Result<Interpretation, Unsupported>
    ensures { result ≡ clef_of s.now }
{
    let clef = match s {
        b"G2" => Clef::Treble,
        b"Gv2" => Clef::TrebleBelow,
        b"G^2" => Clef::TrebleAbove,
        b"F4" => Clef::Bass,
        b"Fv4" => Clef::BassBelow,
        b"C1" => Clef::Soprano,
        b"C2" => Clef::MezzoSoprano,
        b"C3" => Clef::Alto,
        b"C4" => Clef::Tenor,
        b"C5" => Clef::Baritone,
        b"X" => Clef::Percussion,
        _ => return Err(Unsupported::OtherClef),
    };
    Ok(Interpretation::Clef(clef))
}
