// What becomes of a token: nothing, a note, or a notice.
ghost use Rattle.std.specs.Prelude.{◌≡◌};
ghost use Rattle.notice.specs.Number.{number_of};
ghost use Rattle.token.specs.Outcome.{notice_number};

use notice::Code;

// A note, without its lists, of which the lengths are given; 0, 0 is no tuplet. `inferred` says that its length was.
// Stays: the C interface: `actual`, `normal` and `grace` (0, 1 for Q, 2 for q) are the sheet's bytes and the definition's numbers.
#[derive(Clone, Copy, PartialEq, Eq, Debug)]
pub struct Note {
    pub value: u8,
    pub actual: u8,
    pub normal: u8,
    pub dots: u8,
    pub inferred: bool,
    pub rest: bool,
    pub ties: bool,
    pub tied: bool,
    pub slurs: bool,
    pub slurred: bool,
    pub grace: u8,
    pub pitches: usize,
    pub articulations: usize,
}

// Why a token gives no note: a `%` or a repeated length, neither a pitch nor a rest, digits that write no value, or no length at all.
#[derive(Clone, Copy, PartialEq, Eq, Debug)]
pub enum Unread {
    BadLength,
    NoPitch,
    BadReciprocal,
    NoLength,
}

// The notice that the token gives.
impl From<Unread> for Code {
    ghost from_gives = { λ why what. number_of what ≡ notice_number why };

    fn from(why: Unread) -> Code {
        match why {
            Unread::BadLength => Code::RationalDuration,
            Unread::NoPitch => Code::UnsupportedToken,
            Unread::BadReciprocal => Code::UnsupportedDuration,
            Unread::NoLength => Code::MissingDuration,
        }
    }
}
