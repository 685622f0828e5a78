#![tactic(auto)]

// The length that a token without one takes from its record.
ghost use Rattle.std.specs.Prelude.{◌≡◌, [], MatchOption};
ghost use Rattle.duration.specs.Ratio.{spelled_value};
ghost use Rattle.lines.specs.Tokens.{tokens_of};
ghost use Rattle.slices.specs.Compare.{same_bytes};
ghost use Rattle.peers.specs.Peers.{only_signs, is_bare, forbids, offer_of, Offered, met, column_met, settled, kern_cells, agreed_digits, digits_of};

use duration::Value;

// A length that a token offers, as it is spelled.
#[derive(Clone, Copy)]
struct Digits<'a> {
    bytes: &'a [u8],
    ghost offered: { Offered bytes.now },
}

// What was met so far: no neighbour; one, or more, with their length; or neighbours that don't agree.
#[derive(Clone, Copy)]
enum Found<'a> {
    Empty,
    One(Digits<'a>),
    More(Digits<'a>),
    Broken,
}

// What one pass over the columns keeps: whether a kern column that offers nothing was met, and what the others offer.
#[derive(Clone, Copy)]
struct Summary<'a> {
    lacking: bool,
    found: Found<'a>,
}

// Whether all bytes are signs.
fn only_signs(s: &[u8]) -> bool
    ensures { result ≡ only_signs s.now }
{
    s.iter().all(|b| scan::is_sign(*b))
}

// Whether a token is a pitch without a length, with nothing but signs behind it.
pub fn is_bare(token: &[u8]) -> bool
    ensures { result ≡ is_bare token.now }
{
    let Some(letter) = token.first() else {
        return false;
    };
    items::is_letter(*letter) && only_signs(notation::bytes::trim_start(token, *letter))
}

// Whether a blank, a point or a `%` stands in a token.
fn forbids(token: &[u8]) -> bool
    ensures { result ≡ forbids token.now }
{
    token.iter().any(|b| matches!(b, b' ' | b'.' | b'%'))
}

// The length that a neighbour offers.
fn offer(token: &[u8]) -> Option<Digits<'_>>
    ensures { MatchOption result (offer_of token.now ≡ []) (λ o. o.bytes.now ≡ offer_of token.now) }
{
    if !items::is_digit(*token.first()?) {
        return None;
    }
    let (bytes, rest) = token.split_at(items::length_end(token, 0));
    if rest.is_empty() || forbids(rest) {
        return None;
    }
    duration::spelled_value(bytes)?;
    Some(Digits { bytes })
}

impl<'a> Digits<'a> {
    // Whether a neighbour offers a length spelled the same way.
    fn agrees(&self, token: &[u8]) -> bool
        ensures { result ≡ same_bytes (offer_of token.now) self.now.bytes.now }
    {
        let Some(rest) = token.strip_prefix(self.bytes) else {
            return false;
        };
        let Some(next) = rest.first() else {
            return false;
        };
        !items::is_digit(*next) && !forbids(rest)
    }
}

impl<'a> Found<'a> {
    ghost use Rattle.peers.specs.Found.{tally_of};

    // One neighbour more.
    fn meet(self, token: &'a [u8]) -> Found<'a>
        ensures { tally_of result ≡ met (tally_of self.entry) token.now }
    {
        match self {
            Found::Empty => match offer(token) {
                Some(digits) => Found::One(digits),
                None => Found::Broken,
            },
            Found::One(digits) | Found::More(digits) => {
                let same = digits.agrees(token);
                if same {
                    Found::More(digits)
                } else {
                    Found::Broken
                }
            }
            Found::Broken => Found::Broken,
        }
    }

    // The length that more than one neighbour offers, if all do.
    fn settle(self) -> Option<&'a [u8]>
        ensures { digits_of result ≡ settled (tally_of self.entry) }
    {
        match self {
            Found::More(digits) => Some(digits.bytes),
            _ => None,
        }
    }
}

impl<'a> Summary<'a> {
    ghost use Rattle.peers.specs.Found.{tally_of, agreement_of};

    // One kern column more. The first that offers nothing is left out.
    fn pass(self, token: &'a [u8]) -> Summary<'a>
        ensures { agreement_of result ≡ column_met self.entry.lacking (tally_of self.entry.found) token.now }
    {
        let found = self.found.meet(token);
        if !self.lacking && matches!(found, Found::Broken) && offer(token).is_none() {
            return Summary {
                lacking: true,
                ..self
            };
        }
        Summary { found, ..self }
    }
}

// The length that a record gives each of its bare columns, as it is spelled, by one pass over its columns. A cell of the row is below 8 for a spine outside kern.
pub fn agreed_reciprocal<'a>(line: &'a [u8], row: &[u16]) -> Option<&'a [u8]>
    ensures { digits_of result ≡ agreed_digits (tokens_of line.now) (kern_cells row.now) }
{
    let mut summary = Summary {
        lacking: false,
        found: Found::Empty,
    };
    let mut from = 0;
    for cell in row {
        if line.len() < from {
            return summary.found.settle();
        }
        if matches!(summary.found, Found::Broken) {
            return None;
        }
        let end = lines::token_end(line, from);
        // Stays: no plainer: all that is asked of a cell, here and in the definition, is whether it is outside kern.
        let in_kern = 8 <= *cell;
        if in_kern {
            summary = summary.pass(&line[from..end]);
        }
        from = end + 1;
    }
    summary.found.settle()
}

// The value of that length, None where there is none.
pub fn agreed_duration(line: &[u8], row: &[u16]) -> Option<Value>
    ensures { result ≡ spelled_value (agreed_digits (tokens_of line.now) (kern_cells row.now)) }
{
    agreed_reciprocal(line, row).and_then(duration::spelled_value)
}
