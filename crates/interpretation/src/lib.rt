#![tactic(auto)]

// What a tandem interpretation says of its part, read as the source's `apply_interpretation` reads it.
pub mod clef;
pub mod digits;
pub mod key;
pub mod meter;
pub mod tempo;

ghost use Rattle.std.specs.Prelude.{◌≡◌, drop};
ghost use Rattle.interpretation.specs.Interpretation.{meter_mark, is_attribute, other_of, meaning_of, interpretation_of};
ghost use Rattle.interpretation.specs.Unsupported.{notice_number};
ghost use Rattle.notice.specs.Number.{number_of};

use notice::Code;

#[derive(Clone, Copy, PartialEq, Eq, Debug)]
pub enum Interpretation {
    // A star alone.
    Nothing,
    Clef(clef::Clef),
    // Fifths: sharps above 0, flats below.
    Key(i8),
    Meter { numerator: u8, denominator: u8 },
    Symbol(meter::Symbol),
    Tempo(u16),
    // The part's name, or its short name, is the token from index 3 on.
    Name,
    ShortName,
    Mode(key::Mode),
}

// Why an interpretation is not read.
#[derive(Clone, Copy, PartialEq, Eq, Debug)]
pub enum Unsupported {
    // A clef, a key, a meter or a sign after a note of its part in the bar.
    InsideBar,
    OtherClef,
    // A key signature without its closing bracket.
    OpenKey,
    OtherKey,
    OtherMeter,
    OtherSymbol,
    OtherTempo,
    Other,
}

// The notice that says so.
impl From<Unsupported> for Code {
    ghost from_gives = { λ why what. number_of what ≡ notice_number why };

    fn from(why: Unsupported) -> Code {
        match why {
            Unsupported::InsideBar => Code::UnsupportedMidMeasureChange,
            Unsupported::OtherClef => Code::UnsupportedClef,
            Unsupported::OpenKey => Code::MalformedKeySignature,
            Unsupported::OtherKey => Code::NonStandardKeySignature,
            Unsupported::OtherMeter => Code::UnsupportedMeter,
            Unsupported::OtherSymbol => Code::UnsupportedMensurationSign,
            Unsupported::OtherTempo => Code::UnsupportedTempo,
            Unsupported::Other => Code::UnsupportedInterpretation,
        }
    }
}

// A text from index n on: nothing past its end.
pub fn tail(s: &[u8], n: usize) -> &[u8]
    ensures { result.now ≡ drop n s.now }
{
    s.get(n..).unwrap_or(b"")
}

// Whether a text begins with `M` and a digit.
#[tactic(auto, using(crate::proofs::MarkLaws::marks), unfolding(crate::specs::Digits::is_digit))]
fn meter_mark(body: &[u8]) -> bool
    ensures { result ≡ meter_mark body.now }
{
    matches!(body, [b'M', digit, ..] if digit.is_ascii_digit())
}

// Whether a text is a clef, a key signature, a meter or a mensuration sign.
#[tactic(auto, using(crate::proofs::Exits::starts, slices::proofs::CompareLaws::starts_begins, crate::proofs::MarkLaws::attributes))]
fn is_attribute(body: &[u8]) -> bool
    ensures { result ≡ is_attribute body.now }
{
    body.starts_with(b"clef")
        || body.starts_with(b"k[")
        || meter_mark(body)
        || body.starts_with(b"met(")
}

// What the text behind the star says where nothing stands against it.
#[tactic(auto, using(crate::proofs::Exits::strips, crate::proofs::MarkLaws::meanings))]
fn meaning(body: &[u8]) -> Result<Interpretation, Unsupported>
    ensures { result ≡ meaning_of body.now }
{
    if let Some(rest) = body.strip_prefix(b"clef") {
        return clef::clef_of(rest);
    }
    if let Some(rest) = body.strip_prefix(b"k[") {
        return key::key_of(rest);
    }
    if meter_mark(body) {
        return meter::meter_of(tail(body, 1));
    }
    if let Some(rest) = body.strip_prefix(b"met(") {
        return meter::symbol_of(rest);
    }
    other(body)
}

// What a text says that is no attribute: a tempo, a name, a key designation.
#[tactic(auto, using(crate::proofs::Exits::strips, crate::proofs::Exits::starts, crate::proofs::MarkLaws::others))]
fn other(body: &[u8]) -> Result<Interpretation, Unsupported>
    ensures { result ≡ other_of body.now }
{
    if let Some(rest) = body.strip_prefix(b"MM") {
        return tempo::tempo_of(rest);
    }
    if body.starts_with(b"I\"") {
        return Ok(Interpretation::Name);
    }
    if body.starts_with(b"I'") {
        return Ok(Interpretation::ShortName);
    }
    key::mode_of(body)
}

// What a token says, its star included; `noted` says whether its part has a note in the bar.
#[tactic(auto, using(crate::proofs::MarkLaws::says_nothing, crate::proofs::MarkLaws::says_late))]
pub fn interpret(token: &[u8], noted: bool) -> Result<Interpretation, Unsupported>
    ensures { result ≡ interpretation_of token.now noted }
{
    let body = tail(token, 1);
    if body.is_empty() {
        return Ok(Interpretation::Nothing);
    }
    if noted && is_attribute(body) {
        return Err(Unsupported::InsideBar);
    }
    meaning(body)
}
