#![tactic(auto)]

// Durations: the value that a reciprocal writes, and how long a note lasts.
ghost use Rattle.std.specs.Prelude.{◌≡◌, true, List, ℕ, ◌+◌, ◌<◌, ◌≤◌, ◌^◌, length};
ghost use Rattle.duration.specs.Duration.{digits, number, number_of, gcd_of, written, duration_of};
ghost use Rattle.duration.specs.Ratio.{smallest_of, ratio_of, counted_by, ratio_value, spelled_value};
ghost use Rattle.duration.specs.Length.{value_length, dot_factor, tuplet_factor, note_length};

// A written value (0 longa, 1 breve, 2 whole, .. 9 128th) with its tuplet.
#[derive(Clone, Copy, PartialEq, Eq, Debug)]
pub enum Value {
    Plain(u8),
    Tuplet { value: u8, actual: u8, normal: u8 },
}

// A length in whole notes: a pair of whole numbers.
#[derive(Clone, Copy, Debug)]
pub struct Length {
    pub numerator: u32,
    pub denominator: u32,
}

// The number that the digits write; None where a byte is no digit.
#[tactic(auto, using(crate::proofs::Numbers::parsing))]
fn parse(digits: &[u8]) -> Option<u32>
    requires { length digits.now ≤ 4 }
    ensures { result ≡ number_of digits.now }
{
    let mut n = 0;
    for d in digits {
        if !d.is_ascii_digit() {
            return None;
        }
        n = n * 10 + u32::from(*d - b'0');
    }
    Some(n)
}

// The exponent of the largest power of two not above n.
// Stays: a rule of the project: the base value comes from the leading zeros, proved as the power's bounds, where `ilog2` would be shorter.
#[tactic(auto, using(crate::proofs::Powers::leading))]
fn exponent(n: u32) -> u32
    requires { 1 ≤ n }
    ensures { (2 ^ result ≤ n) × (n < 2 ^ (result + 1)) }
{
    31 - n.leading_zeros()
}

// The greatest common divisor.
#[tactic(auto, using(crate::proofs::Divisors::euclid_turn))]
pub fn gcd(n: u32, d: u32) -> u32
    ensures { result ≡ gcd_of n d }
{
    let (mut a, mut b) = (n, d);
    while b != 0 {
        (a, b) = (b, a % b);
    }
    a
}

// The value that the reciprocal n writes.
#[tactic(auto, using(crate::proofs::Divisors::gcd_positive, crate::proofs::Powers::powers), unfolding(crate::specs::Duration::written, crate::specs::Duration::written_at))]
fn value_of(n: u32) -> Value
    requires { (1 ≤ n) × (n ≤ 255) }
    ensures { result ≡ written n }
{
    let k = exponent(n);
    let base = 1u32 << k;
    let value = (k + 2) as u8;
    if n == base {
        return Value::Plain(value);
    }
    let divisor = gcd(n, base);
    Value::Tuplet {
        value,
        actual: (n / divisor) as u8,
        normal: (base / divisor) as u8,
    }
}

// The value of a reciprocal of so many digits that write n; None where there is none.
#[tactic(auto, using(crate::proofs::Durations::valued))]
pub fn value_by(n: u32, long: usize) -> Option<Value>
    ensures { (s : List ℕ) → digits s ≡ true → number s ≡ n → length s ≡ long → result ≡ duration_of s }
{
    match (n, long) {
        (0, 1) => Some(Value::Plain(1)),
        (0, 2) => Some(Value::Plain(0)),
        (1..=255, 0..=4) => Some(value_of(n)),
        _ => None,
    }
}

// The value that a reciprocal's digits write; None where they write none.
#[tactic(auto, using(crate::proofs::Durations::reciprocals))]
pub fn kern_duration(digits: &[u8]) -> Option<Value>
    ensures { result ≡ duration_of digits.now }
{
    if 4 < digits.len() {
        return None;
    }
    value_by(parse(digits)?, digits.len())
}

// The smallest of the ten values that is not below m over n; the longa where none is.
#[tactic(auto, using(crate::proofs::RatioExits::values))]
fn smallest(n: u32, m: u32) -> u32
    requires { (n ≤ 255) × (m ≤ 255) }
    ensures { result ≡ smallest_of 9 n m }
{
    for v in (1..10).rev() {
        if m << v <= 4 * n {
            return v;
        }
    }
    0
}

// The value of the ratio n%m, which lasts m over n; None where it is above 4 or its tuplet doesn't fit.
#[tactic(auto, using(crate::proofs::RatioExits::ratios))]
fn ratio_of(n: u32, m: u32) -> Option<Value>
    requires { (1 ≤ n) × (n ≤ 255) × (m ≤ 255) }
    ensures { result ≡ ratio_of n m }
{
    let all = 4 * n;
    if all < m {
        return None;
    }
    let v = smallest(n, m);
    let part = m << v;
    let value = v as u8;
    if all == part {
        return Some(Value::Plain(value));
    }
    let divisor = gcd(all, part);
    let actual = all / divisor;
    if 255 < actual {
        return None;
    }
    Some(Value::Tuplet {
        value,
        actual: actual as u8,
        normal: (part / divisor) as u8,
    })
}

// The number of 1 to 4 digits worth 1 to 255.
#[tactic(auto, using(crate::proofs::RatioExits::counts_as))]
fn counted(digits: &[u8]) -> Option<u32>
    ensures { result ≡ counted_by digits.now }
{
    if 4 < digits.len() {
        return None;
    }
    match parse(digits)? {
        n @ 1..=255 => Some(n),
        _ => None,
    }
}

// The value of a ratio by its digits; None where there is none.
#[tactic(auto, using(crate::proofs::RatioExits::counted_ratios))]
fn ratio_value(n: &[u8], m: &[u8]) -> Option<Value>
    ensures { result ≡ ratio_value n.now m.now }
{
    ratio_of(counted(n)?, counted(m)?)
}

// The value of a length as it is spelled, a reciprocal or a ratio.
pub fn spelled_value(spelling: &[u8]) -> Option<Value>
    ensures { result ≡ spelled_value spelling.now }
{
    match spelling.iter().position(|b| *b == b'%') {
        Some(at) => ratio_value(&spelling[..at], &spelling[at + 1..]),
        None => kern_duration(spelling),
    }
}

// A value's length.
#[tactic(auto, using(crate::proofs::Lengths::value_shift), unfolding(crate::specs::Length::value_length))]
fn value_length(value: u8) -> Length
    ensures { result ≡ value_length value }
{
    Length {
        numerator: 4,
        denominator: 1u32 << value.min(9),
    }
}

// The factor of the dots.
#[tactic(auto, using(crate::proofs::Lengths::dots_last), unfolding(crate::specs::Length::dot_factor))]
fn dot_factor(dots: u8) -> Length
    ensures { result ≡ dot_factor dots }
{
    let (numerator, denominator) = match dots {
        0 => (1, 1),
        1 => (3, 2),
        2 => (7, 4),
        _ => (15, 8),
    };
    Length {
        numerator,
        denominator,
    }
}

// The factor of the tuplet.
#[tactic(auto, unfolding(crate::specs::Length::tuplet_factor))]
fn tuplet_factor(actual: u8, normal: u8) -> Length
    ensures { result ≡ tuplet_factor actual normal }
{
    if actual == 0 {
        return Length {
            numerator: 1,
            denominator: 1,
        };
    }
    Length {
        numerator: u32::from(normal),
        denominator: u32::from(actual),
    }
}

// How long a note lasts, in whole notes.
#[tactic(auto, using(crate::proofs::Lengths::two_fit, crate::proofs::Lengths::all_fit), unfolding(crate::specs::Length::note_length))]
pub fn length_of(value: u8, dots: u8, actual: u8, normal: u8, grace: bool) -> Length
    ensures { result ≡ note_length value dots actual normal grace }
{
    if grace {
        return Length {
            numerator: 0,
            denominator: 1,
        };
    }
    let v = value_length(value);
    let d = dot_factor(dots);
    let t = tuplet_factor(actual, normal);
    Length {
        numerator: v.numerator * d.numerator * t.numerator,
        denominator: v.denominator * d.denominator * t.denominator,
    }
}
