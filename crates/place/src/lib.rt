#![tactic(auto)]

// A text and its lines, and the reader's place between them.
ghost use Rattle.std.specs.Prelude.{◌≡◌, ◌+◌, ◌-◌, ◌≤◌, ◌<◌, ◌^◌, length, take, drop, IfNone, IfSome};
ghost use Rattle.lines.specs.Lines.{piece_end, without_crs, kind_of};
ghost use Rattle.place.specs.Taken.{Taken};

use lines::Kind;

// The line from one index of a text of any length to another, without the CRs at its end.
#[inline(always)]
#[tactic(auto, using(lines::proofs::TrimLaws::content_take))]
pub fn line_of(text: &[u8], from: usize, end: usize) -> &[u8]
    requires { (from ≤ end) × (end ≤ length text.now) }
    ensures { result.now ≡ without_crs (take (end - from) (drop from text.now)) }
{
    let line = &text[from..end];
    let long = lines::content(line);
    &line[..long]
}

// A text that is no longer than a text may be.
#[derive(Clone, Copy, PartialEq, Eq, Debug)]
pub struct Text<'a> {
    pub bytes: &'a [u8],
    pub ghost short: { length bytes.now ≤ 67108864 },
}

impl<'a> Text<'a> {
    // The bytes from one index to another, without the CRs at their end.
    pub fn content(self, from: usize, end: usize) -> &'a [u8]
        requires { (from ≤ end) × (end ≤ length self.bytes.now) }
        ensures { result.now ≡ without_crs (take (end - from) (drop from self.entry.bytes.now)) }
    {
        line_of(self.bytes, from, end)
    }
}

// A line of a text without its trailing CRs: what it begins with, its number from 1, and the offset at which it begins.
#[derive(Clone, Copy, PartialEq, Eq, Debug)]
pub struct TextLine<'a> {
    pub bytes: &'a [u8],
    pub kind: Kind,
    pub number: u32,
    pub offset: u32,
    pub ghost of_kind: { kind ≡ kind_of bytes.now },
    pub ghost short: { offset + length bytes.now < 2 ^ 27 },
}

impl<'a> TextLine<'a> {
    // The line of these bytes.
    pub fn new(bytes: &'a [u8], number: u32, offset: u32) -> TextLine<'a>
        requires { offset + length bytes.now < 2 ^ 27 }
        ensures { (result.bytes.now ≡ bytes.now) × ((result.number ≡ number) × (result.offset ≡ offset)) }
    {
        let kind = lines::line_kind(bytes);
        TextLine {
            bytes,
            kind,
            number,
            offset,
        }
    }
}

// A token of a line: its bytes, its line and column from 1, and the offset at which it begins.
#[derive(Clone, Copy, PartialEq, Eq, Debug)]
pub struct TextToken<'a> {
    pub bytes: &'a [u8],
    pub line: u32,
    pub column: u16,
    pub offset: u32,
    pub ghost short: { offset + length bytes.now < 2 ^ 27 },
}

// Where a line begins, and how many lines stand before it.
#[derive(Clone, Copy, PartialEq, Eq, Debug)]
pub struct Place {
    pub at: usize,
    pub line: u32,
}

impl Place {
    // The place moves past a line: behind the next LF, or one behind the end of the text.
    // Stays: a rule of the project: a `&mut` struct for the place, moved by one thin function (docs/DECISIONS.md).
    pub fn advance(&mut self, text: Text<'_>)
        requires { (self.old.at ≤ length text.bytes.now) × (self.old.line < 2 ^ 27) }
        ensures { (self.new.at ≡ piece_end 10 text.entry.bytes.now self.old.at + 1) × (self.new.line ≡ self.old.line + 1) }
    {
        self.at = lines::line_end(text.bytes, self.at) + 1;
        self.line += 1;
    }

    // The line at the place, which moves past it; None behind the text's last line.
    pub fn take_line<'a>(&mut self, text: Text<'a>) -> Option<TextLine<'a>>
        requires { self.old.line < 2 ^ 27 }
        ensures past { IfNone result ((length text.entry.bytes.now < self.old.at) × (self.new ≡ self.old)) }
        ensures taken { IfSome result (λ l. Taken text.entry.bytes.now self.old.at self.old.line self.new.at self.new.line l.bytes.now l.number l.offset) }
    {
        let Place { at, line } = *self;
        if text.bytes.len() < at {
            return None;
        }
        self.advance(text);
        let bytes = text.content(at, self.at - 1);
        Some(TextLine::new(bytes, self.line, at as u32))
    }
}
