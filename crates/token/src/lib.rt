#![tactic(auto)]

// Note tokens: what the signs of a token say.
pub mod outcome;
pub mod pitches;
pub mod scan;
