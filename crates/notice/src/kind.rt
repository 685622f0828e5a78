// The notices: the number of each, and its code and its reason, from one table.
ghost use Rattle.std.specs.Prelude.{◌≡◌, ◌<◌, ◌↔◌, IsOk, IfOk};
ghost use Rattle.notice.specs.Table.{code_of, reason_of};
ghost use Rattle.notice.specs.Number.{number_of};

use std::convert::TryFrom;

// A notice, by its code or what its reason names. The numbers are those of the sheet.
#[derive(Clone, Copy, PartialEq, Eq, Debug)]
pub enum Code {
    UnsupportedReference = 1,
    UnsupportedSpine = 2,
    UnsupportedSegment = 3,
    TrailingEmptyField = 4,
    MissingNullInterpretation = 5,
    MissingBarlineField = 6,
    UnsupportedSpineAdd = 7,
    UnsupportedMidMeasureChange = 8,
    UnsupportedClef = 9,
    MalformedKeySignature = 10,
    NonStandardKeySignature = 11,
    UnsupportedMeter = 12,
    UnsupportedMensurationSign = 13,
    UnsupportedTempo = 14,
    UnsupportedInterpretation = 15,
    RationalDuration = 16,
    UnsupportedSignifier = 17,
    UnsupportedToken = 18,
    UnsupportedDuration = 19,
    InferredDuration = 20,
    MissingDuration = 21,
}

// A number that is no notice.
#[derive(Clone, Copy, PartialEq, Eq, Debug)]
pub struct NoNotice;

impl From<Code> for u8 {
    ghost from_gives = { λ what r. r ≡ number_of what };

    fn from(what: Code) -> u8 {
        what as u8
    }
}

impl TryFrom<u8> for Code {
    type Error = NoNotice;

    ghost try_from_gives = { λ n r. (IsOk r ↔ (0 < n) × (n < 22)) × IfOk r (λ what. number_of what ≡ n) };

    fn try_from(number: u8) -> Result<Code, NoNotice> {
        match number {
            1 => Ok(Code::UnsupportedReference),
            2 => Ok(Code::UnsupportedSpine),
            3 => Ok(Code::UnsupportedSegment),
            4 => Ok(Code::TrailingEmptyField),
            5 => Ok(Code::MissingNullInterpretation),
            6 => Ok(Code::MissingBarlineField),
            7 => Ok(Code::UnsupportedSpineAdd),
            8 => Ok(Code::UnsupportedMidMeasureChange),
            9 => Ok(Code::UnsupportedClef),
            10 => Ok(Code::MalformedKeySignature),
            11 => Ok(Code::NonStandardKeySignature),
            12 => Ok(Code::UnsupportedMeter),
            13 => Ok(Code::UnsupportedMensurationSign),
            14 => Ok(Code::UnsupportedTempo),
            15 => Ok(Code::UnsupportedInterpretation),
            16 => Ok(Code::RationalDuration),
            17 => Ok(Code::UnsupportedSignifier),
            18 => Ok(Code::UnsupportedToken),
            19 => Ok(Code::UnsupportedDuration),
            20 => Ok(Code::InferredDuration),
            21 => Ok(Code::MissingDuration),
            _ => Err(NoNotice),
        }
    }
}

// The table of the notices 1 to 21, code and reason of each.
const TABLE: [(&str, &str); 21] = [
    (
        "humdrum.unsupported-reference",
        "Humdrum reference record is not represented in the score model",
    ),
    (
        "humdrum.unsupported-spine",
        "only **kern spines are imported",
    ),
    (
        "humdrum.unsupported-segment",
        "records after every spine terminated are not imported",
    ),
    (
        "humdrum.trailing-empty-field",
        "trailing empty tab fields were ignored",
    ),
    (
        "humdrum.missing-null-interpretation",
        "missing trailing interpretation fields were treated as null interpretations",
    ),
    (
        "humdrum.missing-barline-field",
        "missing trailing barline fields were copied from identical barlines",
    ),
    (
        "humdrum.unsupported-spine-add",
        "a spine added with *+ is not imported",
    ),
    (
        "humdrum.unsupported-mid-measure-change",
        "clef, key and meter changes inside a bar are not imported",
    ),
    (
        "humdrum.unsupported-interpretation",
        "clef is outside the supported subset",
    ),
    (
        "humdrum.unsupported-interpretation",
        "malformed key signature",
    ),
    (
        "humdrum.unsupported-interpretation",
        "non-standard key signature",
    ),
    (
        "humdrum.unsupported-interpretation",
        "meter is outside the supported subset",
    ),
    (
        "humdrum.unsupported-interpretation",
        "mensuration sign is outside the subset",
    ),
    (
        "humdrum.unsupported-interpretation",
        "tempo is outside the supported subset",
    ),
    (
        "humdrum.unsupported-interpretation",
        "interpretation is outside the supported subset",
    ),
    (
        "humdrum.unsupported-duration",
        "rational (%) or repeated durations are outside the subset",
    ),
    (
        "humdrum.unsupported-signifier",
        "kern signifiers outside the supported subset were not imported",
    ),
    (
        "humdrum.unsupported-token",
        "data token has neither a pitch nor a rest",
    ),
    (
        "humdrum.unsupported-duration",
        "reciprocal duration is outside the supported range",
    ),
    (
        "humdrum.inferred-duration",
        "missing reciprocal duration was inferred from aligned music spines",
    ),
    (
        "humdrum.missing-duration",
        "a non-grace kern token needs a duration",
    ),
];

// The table's row of a notice's number.
#[tactic(auto, unfolding(crate::specs::Table::table))]
fn row(number: u8) -> (&'static str, &'static str)
    requires { (0 < number) × (number < 22) }
    ensures { (result.0.now ≡ code_of number) × (result.1.now ≡ reason_of number) }
{
    TABLE[usize::from(number) - 1]
}

impl Code {
    // The words of its code.
    pub fn words(self) -> &'static str
        ensures { result.now ≡ code_of (number_of self) }
    {
        row(u8::from(self)).0
    }

    // Why there is a notice.
    pub fn reason(self) -> &'static str
        ensures { result.now ≡ reason_of (number_of self) }
    {
        row(u8::from(self)).1
    }
}
