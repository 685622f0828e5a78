#![tactic(auto)]

// The records of the sheet, version 1: their fields, the bytes of each, and one writer.
ghost use Rattle.std.specs.Prelude.{◌≡◌, refl, ℕ, ◌<◌, ◌^◌, List, [], length};
ghost use Rattle.slices.specs.Store.{stored};
ghost use Rattle.sheet.specs.Record.{Record, BAR, PART, END, NOTICE, span_of, span_bytes, head_bytes, note_bytes, pitch_bytes, bar_bytes, part_bytes, end_bytes, notice_bytes, record_bytes};
ghost use Rattle.std.proofs.Common.{rules};

// A piece of the text.
#[derive(Clone, Copy, PartialEq, Eq, Debug)]
pub struct Span {
    pub at: u32,
    pub len: u32,
}

// The head, with the sheet's length in bytes and the count of its NOTEs.
#[derive(Clone, Copy, PartialEq, Eq, Debug)]
pub struct Head {
    pub parts: u16,
    pub length: u32,
    pub notes: u32,
}

// The fixed bytes of a NOTE: pitches and articulations are the counts of what follows.
#[derive(Clone, Copy, PartialEq, Eq, Debug)]
pub struct Note {
    pub part: u8,
    pub voice: u8,
    pub value: u8,
    pub bar: u32,
    pub line: u32,
    pub column: u16,
    pub dots: u8,
    pub flags: u8,
    pub actual: u8,
    pub normal: u8,
    pub beam: u8,
    pub pitches: u32,
    pub articulations: u32,
}

// A pitch of a NOTE; alter is in two's complement.
#[derive(Clone, Copy, PartialEq, Eq, Debug)]
pub struct Pitch {
    pub step: u8,
    pub octave: u8,
    pub alter: u8,
}

#[derive(Clone, Copy, PartialEq, Eq, Debug)]
pub struct Bar {
    pub part: u8,
    pub right: u8,
    pub left: u8,
    pub number: u32,
    pub clef: u8,
    pub numerator: u8,
    pub denominator: u8,
    pub symbol: u8,
    // Stays: the C interface: whether a key is given is a byte of the sheet beside the key's own two, which C and the player read there.
    pub key: u8,
    pub fifths: u8,
    pub mode: u8,
    pub tempo: u16,
}

#[derive(Clone, Copy, PartialEq, Eq, Debug)]
pub struct Part {
    pub part: u8,
    // Stays: the C interface: whether a name is given is a byte of the sheet beside the name's span, which C and the player read there.
    pub named: u8,
    pub clef: u8,
    pub name: Span,
    pub short: Span,
}

#[derive(Clone, Copy, PartialEq, Eq, Debug)]
pub struct End {
    pub mode: u8,
    pub fifths: u8,
    pub numerator: u8,
    pub denominator: u8,
    pub tempo: u16,
    pub title: Span,
    pub composer: Span,
    pub lyricist: Span,
}

// A NOTICE; for number 17 the bytes of its value follow.
#[derive(Clone, Copy, PartialEq, Eq, Debug)]
pub struct Notice {
    pub number: u8,
    pub column: u16,
    pub line: u32,
    pub value: Span,
    pub key: Span,
}

// The span of len bytes at an offset; an empty one is 0, 0.
#[tactic(auto, using(std::proofs::lemmas::Bool::Decides::nat_tests), unfolding(crate::specs::Record::span_of))]
pub fn span_of(at: u32, len: u32) -> Span
    ensures { result ≡ span_of at len }
{
    if len == 0 {
        return Span { at: 0, len: 0 };
    }
    Span { at, len }
}

// What the sheet holds as N bytes.
pub trait Fixed<const N: usize>: Copy {
    ghost bytes: { Self → List ℕ };

    // Its bytes, the lowest byte of a number first.
    fn to_bytes(self) -> [u8; N]
        ensures { result ≡ bytes self };

    ghost short: { N < 2 ^ 63 };

    ghost long: { (x : Self) → length (bytes x) ≡ N };
}

// A record that nothing follows.
pub trait Whole<const N: usize>: Fixed<N> {
    ghost as_record: { Self → Record };

    ghost whole: { (x : Self) → record_bytes (as_record x) ≡ Self.bytes x };
}

// The bytes at the start of a buffer, where they fit.
pub fn put<F: Fixed<N>, const N: usize>(out: &mut [u8], fixed: F)
    ensures { out.new ≡ stored out.old (F.bytes fixed) }
{
    let bytes = fixed.to_bytes();
    slices::put(out, &bytes);
}

// A span: its offset, its length.
impl Fixed<8> for Span {
    ghost bytes = { span_bytes };

    ghost short = { Prim.search rules };

    ghost long = { λ _. refl };

    fn to_bytes(self) -> [u8; 8] {
        let mut bytes = [0; 8];
        bytes[..4].copy_from_slice(&self.at.to_le_bytes());
        bytes[4..].copy_from_slice(&self.len.to_le_bytes());
        bytes
    }
}

// The head.
impl Fixed<16> for Head {
    ghost bytes = { head_bytes };

    ghost short = { Prim.search rules };

    ghost long = { λ x. unfold head_bytes in refl };

    #[tactic(auto, unfolding(crate::specs::Record::head_bytes))]
    fn to_bytes(self) -> [u8; 16] {
        let mut bytes = [0; 16];
        bytes[..4].copy_from_slice(b"KRN\0");
        bytes[4] = 1;
        bytes[6..8].copy_from_slice(&self.parts.to_le_bytes());
        bytes[8..12].copy_from_slice(&self.length.to_le_bytes());
        bytes[12..].copy_from_slice(&self.notes.to_le_bytes());
        bytes
    }
}

// A NOTE's fixed bytes.
impl Fixed<28> for Note {
    ghost bytes = { note_bytes };

    ghost short = { Prim.search rules };

    ghost long = { λ x. unfold note_bytes in refl };

    #[tactic(auto, unfolding(crate::specs::Record::note_bytes))]
    fn to_bytes(self) -> [u8; 28] {
        let mut bytes = [0; 28];
        bytes[0] = 1;
        bytes[1] = self.part;
        bytes[2] = self.voice;
        bytes[3] = self.value;
        bytes[4..8].copy_from_slice(&self.bar.to_le_bytes());
        bytes[8..12].copy_from_slice(&self.line.to_le_bytes());
        bytes[12..14].copy_from_slice(&self.column.to_le_bytes());
        bytes[14] = self.dots;
        bytes[15] = self.flags;
        bytes[16] = self.actual;
        bytes[17] = self.normal;
        bytes[18] = self.beam;
        bytes[20..24].copy_from_slice(&self.pitches.to_le_bytes());
        bytes[24..].copy_from_slice(&self.articulations.to_le_bytes());
        bytes
    }
}

// A pitch.
impl Fixed<3> for Pitch {
    ghost bytes = { pitch_bytes };

    ghost short = { Prim.search rules };

    ghost long = { λ x. unfold pitch_bytes in refl };

    #[tactic(auto, unfolding(crate::specs::Record::pitch_bytes))]
    fn to_bytes(self) -> [u8; 3] {
        [self.step, self.octave, self.alter]
    }
}

// A BAR.
impl Fixed<20> for Bar {
    ghost bytes = { bar_bytes };

    ghost short = { Prim.search rules };

    ghost long = { λ x. unfold bar_bytes in refl };

    #[tactic(auto, unfolding(crate::specs::Record::bar_bytes))]
    fn to_bytes(self) -> [u8; 20] {
        let mut bytes = [0; 20];
        bytes[0] = 2;
        bytes[1] = self.part;
        bytes[2] = self.right;
        bytes[3] = self.left;
        bytes[4..8].copy_from_slice(&self.number.to_le_bytes());
        bytes[8] = self.clef;
        bytes[9] = self.numerator;
        bytes[10] = self.denominator;
        bytes[11] = self.symbol;
        bytes[12] = self.key;
        bytes[13] = self.fifths;
        bytes[14] = self.mode;
        bytes[16..18].copy_from_slice(&self.tempo.to_le_bytes());
        bytes
    }
}

impl Whole<20> for Bar {
    ghost as_record = { BAR };

    ghost whole = { λ x. unfold record_bytes in refl };
}

// A PART.
impl Fixed<20> for Part {
    ghost bytes = { part_bytes };

    ghost short = { Prim.search rules };

    ghost long = { λ x. unfold part_bytes in refl };

    #[tactic(auto, unfolding(crate::specs::Record::part_bytes))]
    fn to_bytes(self) -> [u8; 20] {
        let mut bytes = [0; 20];
        bytes[0] = 3;
        bytes[1] = self.part;
        bytes[2] = self.named;
        bytes[3] = self.clef;
        bytes[4..12].copy_from_slice(&self.name.to_bytes());
        bytes[12..].copy_from_slice(&self.short.to_bytes());
        bytes
    }
}

impl Whole<20> for Part {
    ghost as_record = { PART };

    ghost whole = { λ x. unfold record_bytes in refl };
}

// The END.
impl Fixed<32> for End {
    ghost bytes = { end_bytes };

    ghost short = { Prim.search rules };

    ghost long = { λ x. unfold end_bytes in refl };

    #[tactic(auto, unfolding(crate::specs::Record::end_bytes))]
    fn to_bytes(self) -> [u8; 32] {
        let mut bytes = [0; 32];
        bytes[0] = 4;
        bytes[1] = self.mode;
        bytes[2] = self.fifths;
        bytes[4] = self.numerator;
        bytes[5] = self.denominator;
        bytes[6..8].copy_from_slice(&self.tempo.to_le_bytes());
        bytes[8..16].copy_from_slice(&self.title.to_bytes());
        bytes[16..24].copy_from_slice(&self.composer.to_bytes());
        bytes[24..].copy_from_slice(&self.lyricist.to_bytes());
        bytes
    }
}

impl Whole<32> for End {
    ghost as_record = { END };

    ghost whole = { λ x. unfold record_bytes in refl };
}

// A NOTICE's first 24 bytes.
impl Fixed<24> for Notice {
    ghost bytes = { notice_bytes };

    ghost short = { Prim.search rules };

    ghost long = { λ x. unfold notice_bytes in refl };

    #[tactic(auto, unfolding(crate::specs::Record::notice_bytes))]
    fn to_bytes(self) -> [u8; 24] {
        let mut bytes = [0; 24];
        bytes[0] = 5;
        bytes[1] = self.number;
        bytes[2..4].copy_from_slice(&self.column.to_le_bytes());
        bytes[4..8].copy_from_slice(&self.line.to_le_bytes());
        bytes[8..16].copy_from_slice(&self.value.to_bytes());
        bytes[16..].copy_from_slice(&self.key.to_bytes());
        bytes
    }
}

impl Whole<24> for Notice {
    ghost as_record = { λ n. NOTICE n [] };

    ghost whole = { λ x. unfold record_bytes notice_bytes in refl };
}
