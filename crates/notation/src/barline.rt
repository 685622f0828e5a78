// The barlines that a token of a barline record gives.
ghost use Rattle.std.specs.Prelude.{◌≡◌};
ghost use Rattle.notation.specs.Barline.{barline_number, right_of, left_of, barlines_of};

use crate::bytes;

#[derive(Debug, PartialEq, Eq, Clone, Copy)]
pub enum Barline {
    Normal,
    Double,
    Final,
    RepeatStart,
    RepeatEnd,
    Invisible,
}

// The barline that closes a bar, and the one that the next bar begins with.
#[derive(Debug, PartialEq, Eq, Clone, Copy)]
pub struct Barlines {
    pub right: Barline,
    pub left: Barline,
}

// The sheet's number of a barline.
impl From<Barline> for u8 {
    ghost from_gives = { λ b r. r ≡ barline_number b };

    fn from(barline: Barline) -> u8 {
        match barline {
            Barline::Normal => 0,
            Barline::Double => 1,
            Barline::Final => 2,
            Barline::RepeatStart => 3,
            Barline::RepeatEnd => 4,
            Barline::Invisible => 8,
        }
    }
}

// The barline that closes the bar, by the token and its body, the token without its leading `=`.
#[tactic(auto, using(crate::proofs::ByteLaws::found_contains), unfolding(crate::specs::Barline::right_of))]
fn right_barline(token: &[u8], body: &[u8]) -> Barline
    ensures { result ≡ right_of token.now body.now }
{
    if bytes::contains_pair(body, b':', b'|') || bytes::contains_pair(body, b':', b'!') {
        Barline::RepeatEnd
    } else if slices::begins(token, b"==") {
        Barline::Final
    } else if bytes::contains_pair(body, b'|', b'|') {
        Barline::Double
    } else if body.contains(&b'-') {
        Barline::Invisible
    } else {
        Barline::Normal
    }
}

// The barline that the next bar begins with, by the token's body.
#[tactic(auto, unfolding(crate::specs::Barline::left_of))]
fn left_barline(body: &[u8]) -> Barline
    ensures { result ≡ left_of body.now }
{
    if bytes::contains_pair(body, b'|', b':') || bytes::contains_pair(body, b'!', b':') {
        Barline::RepeatStart
    } else {
        Barline::Normal
    }
}

// The barlines of a token.
#[tactic(auto, unfolding(crate::specs::Barline::barlines_of))]
pub fn kern_barline(token: &[u8]) -> Barlines
    ensures { result ≡ barlines_of token.now }
{
    let body = bytes::trim_start(token, b'=');
    Barlines {
        right: right_barline(token, body),
        left: left_barline(body),
    }
}
