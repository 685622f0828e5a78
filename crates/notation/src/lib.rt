#![tactic(auto)]

// Beams and barlines, and the bytes that they are read by.
pub mod barline;
pub mod beam;
pub mod bytes;
