// The beam of a voice.
ghost use Rattle.std.specs.Prelude.{◌≡◌};
ghost use Rattle.notation.specs.Beam.{letters_of, beamed, beam_number};

// A note's place under a beam.
#[derive(Debug, PartialEq, Eq, Clone, Copy)]
pub enum Mark {
    None,
    Begin,
    Continue,
    End,
}

// A voice's state: whether a beam is held open.
#[derive(Debug, PartialEq, Eq, Clone, Copy)]
pub struct Beam {
    pub held: bool,
}

// A note's mark, and the voice's state behind the note.
#[derive(Debug, PartialEq, Eq, Clone, Copy)]
pub struct Beamed {
    pub mark: Mark,
    pub state: Beam,
}

// Whether a token has a letter that starts a beam, and one that ends it.
#[derive(Debug, PartialEq, Eq, Clone, Copy)]
pub struct Letters {
    pub starts: bool,
    pub ends: bool,
}

impl Beam {
    // The state goes in, and comes back with the note's mark.
    pub fn next(mut self, starts: bool, ends: bool) -> Beamed
        ensures { result ≡ beamed self.held starts ends }
    {
        let mark;
        (mark, self.held) = match (starts, ends, self.held) {
            (true, true, _) => (Mark::None, false),
            (true, false, _) => (Mark::Begin, true),
            (false, true, true) => (Mark::End, false),
            (false, false, true) => (Mark::Continue, true),
            (false, _, false) => (Mark::None, false),
        };
        Beamed { mark, state: self }
    }
}

// The sheet's number of a mark.
impl From<Mark> for u8 {
    ghost from_gives = { λ m r. r ≡ beam_number m };

    fn from(mark: Mark) -> u8 {
        match mark {
            Mark::None => 0,
            Mark::Begin => 1,
            Mark::Continue => 2,
            Mark::End => 3,
        }
    }
}

// Whether L and J stand anywhere in the token.
#[tactic(auto, using(crate::proofs::ByteLaws::found_contains))]
pub fn beam_letters(token: &[u8]) -> Letters
    ensures { result ≡ letters_of token.now }
{
    Letters {
        starts: token.contains(&b'L'),
        ends: token.contains(&b'J'),
    }
}
