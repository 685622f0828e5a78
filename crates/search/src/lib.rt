#![tactic(auto)]

// A byte searched and counted in a slice, by blocks of bytes.
ghost use Rattle.std.specs.Prelude.{◌≡◌, true, ◌==◌, ◌+◌, ◌≤◌, ◌<◌, length, drop, count_by};
ghost use Rattle.slices.specs.Split.{split, index_of};
ghost use Rattle.search.specs.Blocks.{Without};

// How many bytes of a part are b: a byte holds the sum, so that many are compared at once.
fn hits(part: &[u8], b: u8) -> u8
    requires { length part.now ≤ 255 }
    ensures { result ≡ count_by (λ x. x == b) part.now }
{
    part.iter().map(|&x| u8::from(x == b)).sum()
}

// Whether b is none of the bytes of a block: all are compared, and none decides alone.
fn lacks<const N: usize>(block: &[u8; N], b: u8) -> bool
    ensures { result ≡ true → count_by (λ x. x == b) block.now ≡ 0 }
{
    let mut met = false;
    for x in block {
        met |= *x == b;
    }
    !met
}

// Where the blocks of N bytes without b from `from` on end.
// Stays: no plainer: no type bounds a const parameter, so `0 < N` is asked; the index answered is one of s, as the contract names it.
fn blocks<const N: usize>(s: &[u8], b: u8, from: usize) -> usize
    requires { (0 < N) × (N ≤ 255) × (from ≤ length s.now) }
    ensures { Without b s.now from result }
{
    let (blocks, _) = s[from..].as_chunks::<N>();
    let mut i = from;
    for block in blocks {
        if !lacks(block, b) {
            return i;
        }
        i += N;
    }
    i
}

// The index of the first b from `from` on, or the length where there is none.
pub fn find_from(s: &[u8], b: u8, from: usize) -> usize
    requires { from ≤ length s.now }
    ensures { (result ≡ from + index_of b (drop from s.now)) × (result ≤ length s.now) }
{
    let i = blocks::<16>(s, b, blocks::<64>(s, b, from));
    i + slices::find(&s[i..], b)
}

// The index of the first b, or the length where there is none: the first 40 bytes one by one, then by blocks.
pub fn find_far(s: &[u8], b: u8) -> usize
    ensures { (result ≡ index_of b s.now) × (result ≤ length s.now) }
{
    let near = s.len().min(40);
    let i = slices::find(&s[..near], b);
    if i < near { i } else { find_from(s, b, near) }
}

// How many pieces s has between the bytes b.
pub fn count(s: &[u8], b: u8) -> usize
    ensures { (result ≡ length (split b s.now)) × (result ≤ length s.now + 1) }
{
    let (parts, rest) = s.as_chunks::<255>();
    let mut n = 0;
    for part in parts {
        n += usize::from(hits(part, b));
    }
    n + usize::from(hits(rest, b)) + 1
}
