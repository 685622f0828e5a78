// What the signs of a token say.
use duration::Value;

// What the digits of the first sub-token give: nothing where there are none, no value where they write none.
#[derive(Clone, Copy, PartialEq, Eq, Debug)]
pub enum Given {
    Nothing,
    NoValue,
    Length(Value),
}

// What stands before in a sub-token: no length, digits right before, digits further to the left, or a ratio.
#[derive(Clone, Copy, PartialEq, Eq, Debug)]
pub enum Before {
    Nothing,
    Right,
    Further,
    Ratio,
}

// What a token says, without its lists, of which the lengths are given.
#[derive(Clone, Copy, PartialEq, Eq, Debug)]
pub struct Scan {
    pub bad: bool,
    pub silent: bool,
    pub given: Given,
    pub dots: u8,
    pub rest: bool,
    pub pitches: usize,
    pub signifiers: usize,
    pub ties: bool,
    pub tied: bool,
    pub slurs: bool,
    pub slurred: bool,
    pub grace: u8,
    pub articulations: usize,
}
