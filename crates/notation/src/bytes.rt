// Bytes sought in a token.
ghost use Rattle.std.specs.Prelude.{◌≡◌};
ghost use Rattle.notation.specs.Bytes.{contains_pair, trim_start};

// Whether a stands directly before b anywhere in s.
pub fn contains_pair(s: &[u8], a: u8, b: u8) -> bool
    ensures { result ≡ contains_pair a b s.now }
{
    s.iter()
        .zip(s.iter().skip(1))
        .any(|(x, y)| *x == a && *y == b)
}

// s without the bytes b that it begins with.
pub fn trim_start(s: &[u8], b: u8) -> &[u8]
    ensures { result.now ≡ trim_start b s.now }
{
    let mut rest = s;
    while let Some(shorter) = rest.strip_prefix(&[b]) {
        rest = shorter;
    }
    rest
}
