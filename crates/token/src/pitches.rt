// The pitches of a token.

// A pitch: step (C 0 to B 6), octave, and its alteration with 128 added.
#[derive(Clone, Copy, PartialEq, Eq, Debug)]
pub struct Tone {
    pub step: u8,
    pub octave: u8,
    pub alter: u8,
}
