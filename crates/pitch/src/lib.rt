#![tactic(auto)]

// The pitch that a run of one letter writes, and the accidentals behind it.
ghost use Rattle.std.specs.Prelude.{◌≡◌};
ghost use Rattle.pitch.specs.Pitch.{pitch_of, altered_by, twos_complement};

// A step, C 0 to B 6, and an octave.
#[derive(Clone, Copy, PartialEq, Eq, Debug)]
pub struct Pitch {
    pub step: u8,
    pub octave: u8,
}

// The pitch of a letter that stands `count` times in a row; None where that is no pitch of octave 0 to 9.
#[tactic(auto, using(std::proofs::lemmas::Bool::Decides::nat_tests, crate::proofs::Letters::lower_place, crate::proofs::Letters::upper_place), unfolding(crate::specs::Pitch::pitch_of, crate::specs::Pitch::lower_pitch, crate::specs::Pitch::upper_pitch, crate::specs::Pitch::within))]
pub fn pitch_of(letter: u8, count: usize) -> Option<Pitch>
    ensures { result ≡ pitch_of letter count }
{
    match (letter, count) {
        (b'a'..=b'g', 1..=6) => Some(Pitch {
            step: (letter - b'a' + 5) % 7,
            octave: 3 + count as u8,
        }),
        (b'A'..=b'G', 1..=4) => Some(Pitch {
            step: (letter - b'A' + 5) % 7,
            octave: 4 - count as u8,
        }),
        _ => None,
    }
}

// An alteration after one sign more. An alteration is held with 128 added: 0 is 128 flats, 128 natural, 255 is 127 sharps.
#[tactic(auto, unfolding(crate::specs::Pitch::altered_by))]
pub fn altered(alter: u8, sign: u8) -> u8
    ensures { result ≡ altered_by alter sign }
{
    match sign {
        b'#' => alter.saturating_add(1),
        b'-' => alter.saturating_sub(1),
        b'n' => 128,
        _ => alter,
    }
}

// The alteration as the sheet's byte.
#[tactic(auto, unfolding(crate::specs::Pitch::twos_complement))]
pub fn alter_byte(alter: u8) -> u8
    ensures { result ≡ twos_complement alter }
{
    alter.wrapping_add(128)
}
