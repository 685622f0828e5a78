// What becomes of a token: nothing, a note, or a notice.
ghost use Rattle.std.specs.Prelude.{◌≡◌};
ghost use Rattle.token.specs.Outcome.{noted_as, outcome_of};

use duration::Value;
use token::outcome::{Note, Unread};
use token::scan::{Given, Scan};

// The note of a token; a rest has no ties and no pitches.
#[tactic(auto, unfolding(token::specs::Outcome::note_of))]
fn note_of(inferred: bool, v: Value, s: Scan) -> Note
    ensures { result ≡ noted_as inferred v s }
{
    let (value, actual, normal) = match v {
        Value::Plain(value) => (value, 0, 0),
        Value::Tuplet {
            value,
            actual,
            normal,
        } => (value, actual, normal),
    };
    Note {
        value,
        actual,
        normal,
        dots: s.dots,
        inferred,
        rest: s.rest,
        ties: s.ties && !s.rest,
        tied: s.tied && !s.rest,
        slurs: s.slurs,
        slurred: s.slurred,
        grace: s.grace,
        pitches: if s.rest { 0 } else { s.pitches },
        articulations: s.articulations,
    }
}

// What becomes of a token by its scan, None where it is silent; `inferred` is the length that its peers give, None where they give none.
#[tactic(auto, using(std::proofs::lemmas::Bool::Decides::nat_tests), unfolding(token::specs::Outcome::outcome_of, token::specs::Outcome::without_digits))]
pub fn kern_token(s: Scan, inferred: Option<Value>) -> Result<Option<Note>, Unread>
    ensures { result ≡ outcome_of s inferred }
{
    if s.silent {
        return Ok(None);
    }
    if s.bad {
        return Err(Unread::BadLength);
    }
    if !s.rest && s.pitches == 0 {
        return Err(Unread::NoPitch);
    }
    let note = match s.given {
        Given::Length(value) => note_of(false, value, s),
        Given::NoValue => return Err(Unread::BadReciprocal),
        // a grace without digits is an eighth
        Given::Nothing if s.grace != 0 => note_of(false, Value::Plain(5), s),
        Given::Nothing => note_of(true, inferred.ok_or(Unread::NoLength)?, s),
    };
    Ok(Some(note))
}
