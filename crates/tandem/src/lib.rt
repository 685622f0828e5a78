#![tactic(auto)]

// What an interpretation sets in its part.
ghost use Rattle.std.specs.Prelude.{◌≡◌, ◌+◌, ◌-◌, ◌<◌, ◌^◌};
ghost use Rattle.sheet.specs.Record.{span_of};
ghost use Rattle.tandem.specs.Change.{changed, set_by};

use interpretation::Interpretation;
use reading::Part;
use sheet::Span;

// What stands behind `*I"` or `*I'` in a token of that offset and length.
fn name_span(at: u32, len: u32) -> Span
    requires { at < 2 ^ 27 }
    ensures { result ≡ span_of (at + 3) (len - 3) }
{
    sheet::span_of(at + 3, len.saturating_sub(3))
}

// What an interpretation sets, by the sheet's numbers.
#[derive(Clone, Copy, PartialEq, Eq, Debug)]
pub enum Setting {
    Nothing,
    Clef(u8),
    Key(u8),
    Meter(u8, u8),
    Symbol(u8),
    Tempo(u16),
    Name,
    ShortName,
    Mode(u8),
}

// What a setting of any numbers changes in its part: at and len are its token's.
pub fn set(part: &mut Part, what: Setting, at: u32, len: u32)
    requires { at < 2 ^ 27 }
    ensures { part.new ≡ set_by what (span_of (at + 3) (len - 3)) part.old }
{
    match what {
        Setting::Clef(clef) => part.current.clef = clef,
        Setting::Key(fifths) => {
            part.current.key = 1;
            part.current.fifths = fifths;
            part.current.mode = part.mode;
        }
        Setting::Meter(numerator, denominator) => {
            part.current.numerator = numerator;
            part.current.denominator = denominator;
        }
        Setting::Symbol(symbol) => part.current.symbol = symbol,
        Setting::Tempo(bpm) => part.current.tempo = bpm,
        Setting::Name => {
            part.named = 1;
            part.name = name_span(at, len);
        }
        Setting::ShortName => part.short = name_span(at, len),
        Setting::Mode(mode) => {
            part.mode = mode;
            part.current.mode = if part.current.key == 1 { mode } else { 0 };
        }
        Setting::Nothing => {}
    }
}

// What an interpretation changes in its part: at and len are its token's.
pub fn change(part: &mut Part, what: Interpretation, at: u32, len: u32)
    requires { at < 2 ^ 27 }
    ensures { part.new ≡ changed what (span_of (at + 3) (len - 3)) part.old }
{
    let setting = match what {
        Interpretation::Nothing => Setting::Nothing,
        Interpretation::Clef(clef) => Setting::Clef(u8::from(clef)),
        Interpretation::Key(fifths) => Setting::Key(fifths.cast_unsigned()),
        Interpretation::Meter {
            numerator,
            denominator,
        } => Setting::Meter(numerator, denominator),
        Interpretation::Symbol(symbol) => Setting::Symbol(u8::from(symbol)),
        Interpretation::Tempo(bpm) => Setting::Tempo(bpm),
        Interpretation::Name => Setting::Name,
        Interpretation::ShortName => Setting::ShortName,
        Interpretation::Mode(mode) => Setting::Mode(u8::from(mode)),
    };
    set(part, setting, at, len);
}
