#![tactic(auto)]

// Slices of bytes: searched, compared, and written at their start.
ghost use Rattle.std.specs.Prelude.{◌≡◌, ◌≤◌, length};
ghost use Rattle.slices.specs.Split.{index_of, piece_at};
ghost use Rattle.slices.specs.Compare.{same_bytes, begins_with};
ghost use Rattle.slices.specs.Store.{stored};

// The index of the first b, or the length where there is none.
#[tactic(auto, using(crate::proofs::SearchLaws::searching))]
pub fn find(s: &[u8], b: u8) -> usize
    ensures { (result ≡ index_of b s.now) × (result ≤ length s.now) }
{
    // Stays: an index, and no `position`: one counter in place of three (a chorale takes 185 instructions a byte, and 188 with `position`).
    for i in 0..s.len() {
        if s[i] == b {
            return i;
        }
    }
    s.len()
}

// The piece of s that a span, an offset and a length, names; it ends where s ends.
pub fn piece(s: &[u8], at: usize, len: usize) -> &[u8]
    ensures { result.now ≡ piece_at s.now at len }
{
    let rest = &s[at.min(s.len())..];
    &rest[..len.min(rest.len())]
}

// Whether s begins with p.
#[tactic(auto, using(crate::proofs::CompareLaws::starts_begins))]
pub fn begins(s: &[u8], p: &[u8]) -> bool
    ensures { result ≡ begins_with p.now s.now }
{
    s.starts_with(p)
}

// Whether s is exactly p.
#[tactic(auto, using(crate::proofs::CompareLaws::eq_same))]
pub fn same(s: &[u8], p: &[u8]) -> bool
    ensures { result ≡ same_bytes p.now s.now }
{
    s == p
}

// `bytes` at the start of out and its old bytes behind; out is unchanged where they don't fit.
#[tactic(auto, using(crate::proofs::StoreLaws::stored_not))]
pub fn put(out: &mut [u8], bytes: &[u8])
    ensures { out.new ≡ stored out.old bytes.now }
{
    if out.len() < bytes.len() {
        return;
    }
    // Stays: byte by byte, and no `copy_from_slice`: the library for C needs no memmove for it.
    for (i, byte) in bytes.iter().enumerate() {
        out[i] = *byte;
    }
}
