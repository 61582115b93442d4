//! Readers of the words of a line: a text in front, the parts at a byte, and numbers in decimal digits.
//! It stands on std and memchr, and allocates nothing.
//! Its contract gives the layer above, for each reader, which bytes have what it found, and that there is no such thing in the others.
#![tactic(auto)]

ghost use Rattle.std.specs.Prelude.{◌≡◌, ◌≢◌, ℕ, ◌<◌, ◌≤◌, ◌^◌, List, [], ◌∷◌, ◌++◌, length, take, drop, IfSome, IfNone};
ghost use Rattle.std.specs.Fmt.{decimal};
ghost use Rattle.std.specs.Str.Parse.{AllDigits, digits_value};
ghost use Rattle.kp_words.specs.Words.{Lacks, BeginsWithNoDigit, SpellsNoNumber};

use memchr::memchr;

/// A number of so many digits, and any with one more, is below 2^64.
const FEW_DIGITS: usize = 18;

/// What follows this text, which the bytes begin with.
pub fn after<'a>(text: &[u8], bytes: &'a [u8]) -> Option<&'a [u8]>
    ensures found { IfSome result (λ rest. bytes.now ≡ text.now ++ rest.now) }
    ensures none { IfNone result ((rest : List ℕ) → bytes.now ≢ text.now ++ rest) }
{
    bytes.strip_prefix(text)
}

/// What stands before this text, which the bytes end with.
pub fn before<'a>(text: &[u8], bytes: &'a [u8]) -> Option<&'a [u8]>
    ensures found { IfSome result (λ front. bytes.now ≡ front.now ++ text.now) }
    ensures none { IfNone result ((front : List ℕ) → bytes.now ≢ front ++ text.now) }
{
    bytes.strip_suffix(text)
}

/// What stands before and after the first of these bytes.
#[inline(always)]
pub fn split_first_at(separator: u8, bytes: &[u8]) -> Option<(&[u8], &[u8])>
    ensures found { IfSome result (λ parts. (bytes.now ≡ parts.0.now ++ separator ∷ parts.1.now)
        × Lacks separator parts.0.now) }
    ensures none { IfNone result (Lacks separator bytes.now) }
{
    match memchr(separator, bytes) {
        Some(i) => {
            let (front, _) = bytes.split_at(i);
            let (_, rest) = bytes.split_at(i + 1);
            Some((front, rest))
        }
        None => None,
    }
}

/// The number that so many digits in front spell, and what follows them: there is one, and no zero stands in front of
/// others.
#[inline(always)]
fn number_until(bytes: &[u8], digits: usize, value: u64) -> Option<(u64, &[u8])>
    requires within { digits ≤ length bytes.now }
    requires digits { AllDigits 10 (take digits bytes.now) }
    requires value { value ≡ digits_value 10 (take digits bytes.now) }
    requires rest { BeginsWithNoDigit (drop digits bytes.now) }
    ensures found { IfSome result
        (λ (n, rest). (bytes.now ≡ decimal n ++ rest.now) × BeginsWithNoDigit rest.now
        × (n < 2 ^ 64)) }
    ensures none { IfNone result (SpellsNoNumber bytes.now) }
{
    if digits == 0 {
        return None;
    }
    if digits > 1 && bytes[0] == b'0' {
        return None;
    }
    let (_, rest) = bytes.split_at(digits);
    Some((value, rest))
}

/// The number in front of these bytes, and what follows its digits, with a test of each step.
#[inline(never)]
fn long_number(bytes: &[u8]) -> Option<(u64, &[u8])>
    ensures found { IfSome result
        (λ (n, rest). (bytes.now ≡ decimal n ++ rest.now) × BeginsWithNoDigit rest.now
        × (n < 2 ^ 64)) }
    ensures none { IfNone result (SpellsNoNumber bytes.now) }
{
    let mut value: u64 = 0;
    for (i, byte) in bytes.iter().enumerate() {
        if *byte < b'0' || *byte > b'9' {
            return number_until(bytes, i, value);
        }
        let Some(shifted) = value.checked_mul(10) else {
            return None;
        };
        let Some(next) = shifted.checked_add(u64::from(*byte - b'0')) else {
            return None;
        };
        value = next;
    }
    number_until(bytes, bytes.len(), value)
}

/// How many digits are in front of these bytes, and the number that they spell: at most so many as are few.
#[inline(always)]
fn few_digits(bytes: &[u8]) -> (usize, u64)
    ensures within { result.0 ≤ length bytes.now }
    ensures digits { AllDigits 10 (take result.0 bytes.now) }
    ensures value { result.1 ≡ digits_value 10 (take result.0 bytes.now) }
    ensures rest { result.0 < 18 → BeginsWithNoDigit (drop result.0 bytes.now) }
{
    let most = bytes.len().min(FEW_DIGITS);
    let mut value: u64 = 0;
    let mut digits = 0;
    while digits < most && b'0' <= bytes[digits] && bytes[digits] <= b'9' {
        value = 10 * value + u64::from(bytes[digits] - b'0');
        digits += 1;
    }
    (digits, value)
}

/// The number below 2^64 in front of these bytes, with no zero in front of others, and what follows its digits.
#[inline(always)]
pub fn leading_number(bytes: &[u8]) -> Option<(u64, &[u8])>
    ensures found { IfSome result
        (λ (n, rest). (bytes.now ≡ decimal n ++ rest.now) × BeginsWithNoDigit rest.now
        × (n < 2 ^ 64)) }
    ensures none { IfNone result (SpellsNoNumber bytes.now) }
{
    let (digits, value) = few_digits(bytes);
    if digits >= FEW_DIGITS {
        return long_number(bytes);
    }
    number_until(bytes, digits, value)
}

/// The number below the limit that the whole of these bytes spell.
pub fn number_below(bytes: &[u8], limit: u64) -> Option<u64>
    ensures found { IfSome result (λ n. (bytes.now ≡ decimal n) × (n < limit)) }
    ensures none { IfNone result ((n : ℕ) → n < limit → bytes.now ≢ decimal n) }
{
    let Some((n, rest)) = leading_number(bytes) else {
        return None;
    };
    if n >= limit {
        return None;
    }
    if rest.is_empty() { Some(n) } else { None }
}

/// The number of one digit that stands before the first space, and what follows the space: most nodes and epochs are such.
#[inline(always)]
fn digit_then(bytes: &[u8]) -> Option<(u64, &[u8])>
    ensures { IfSome result (λ found. bytes.now ≡ decimal found.0 ++ 32 ∷ found.1.now) }
{
    if bytes.len() < 2 || bytes[1] != b' ' || bytes[0] < b'0' || bytes[0] > b'9' {
        return None;
    }
    let (_, rest) = bytes.split_at(2);
    Some((u64::from(bytes[0] - b'0'), rest))
}

/// This number and what follows the space, where it is below the limit, and stands in front of the bytes with a space behind it.
#[inline(always)]
fn below_then<'a>(bytes: &'a [u8], n: u64, rest: &'a [u8], limit: u64) -> Option<(u64, &'a [u8])>
    requires is { bytes.now ≡ decimal n ++ rest.now }
    requires ends { BeginsWithNoDigit rest.now }
    ensures found { IfSome result (λ found. (bytes.now ≡ decimal found.0 ++ 32 ∷ found.1.now)
        × (found.0 < limit)) }
    ensures none { IfNone result ((n : ℕ) (rest : List ℕ) → n < limit
        → bytes.now ≢ decimal n ++ 32 ∷ rest) }
{
    let _ = bytes;
    if n >= limit {
        return None;
    }
    match after(b" ", rest) {
        Some(rest) => Some((n, rest)),
        None => None,
    }
}

/// Does what [`number_then`] does for a number of many digits.
#[cold]
#[inline(never)]
fn long_then(bytes: &[u8], limit: u64) -> Option<(u64, &[u8])>
    ensures found { IfSome result (λ found. (bytes.now ≡ decimal found.0 ++ 32 ∷ found.1.now)
        × (found.0 < limit)) }
    ensures none { IfNone result ((n : ℕ) (rest : List ℕ) → n < limit
        → bytes.now ≢ decimal n ++ 32 ∷ rest) }
{
    match long_number(bytes) {
        Some((n, rest)) => below_then(bytes, n, rest, limit),
        None => None,
    }
}

/// The number below the limit that stands before the first space, and what follows the space.
#[inline(always)]
pub fn number_then(bytes: &[u8], limit: u64) -> Option<(u64, &[u8])>
    ensures found { IfSome result (λ found. (bytes.now ≡ decimal found.0 ++ 32 ∷ found.1.now)
        × (found.0 < limit)) }
    ensures none { IfNone result ((n : ℕ) (rest : List ℕ) → n < limit
        → bytes.now ≢ decimal n ++ 32 ∷ rest) }
{
    match digit_then(bytes) {
        Some((n, rest)) if n < limit => return Some((n, rest)),
        _ => {}
    }
    let (digits, value) = few_digits(bytes);
    if digits >= FEW_DIGITS {
        return long_then(bytes, limit);
    }
    match number_until(bytes, digits, value) {
        Some((n, rest)) => below_then(bytes, n, rest, limit),
        None => None,
    }
}

/// The number below the limit that stands between this text and a space, and what follows the space.
pub fn field_then<'a>(text: &[u8], bytes: &'a [u8], limit: u64) -> Option<(u64, &'a [u8])>
    ensures found { IfSome result
        (λ found. (bytes.now ≡ text.now ++ (decimal found.0 ++ 32 ∷ found.1.now))
        × (found.0 < limit)) }
    ensures none { IfNone result
        ((n : ℕ) (rest : List ℕ) → n < limit → bytes.now ≢ text.now ++ (decimal n ++ 32 ∷ rest)) }
{
    match after(text, bytes) {
        Some(word) => number_then(word, limit),
        None => None,
    }
}

/// The number below the limit that follows this text, and ends the bytes.
pub fn last_field(text: &[u8], bytes: &[u8], limit: u64) -> Option<u64>
    ensures found { IfSome result (λ n. (bytes.now ≡ text.now ++ decimal n) × (n < limit)) }
    ensures none { IfNone result ((n : ℕ) → n < limit → bytes.now ≢ text.now ++ decimal n) }
{
    match after(text, bytes) {
        Some(word) => number_below(word, limit),
        None => None,
    }
}

/// The number that is at most the greatest one and stands in front of this byte, and what follows the byte.
pub fn number_before(end: u8, bytes: &[u8], greatest: u64) -> Option<(u64, &[u8])>
    requires { BeginsWithNoDigit (end ∷ []) }
    ensures found { IfSome result (λ found. (bytes.now ≡ decimal found.0 ++ end ∷ found.1.now)
        × (found.0 ≤ greatest)) }
    ensures none { IfNone result ((n : ℕ) (rest : List ℕ) → n ≤ greatest
        → bytes.now ≢ decimal n ++ end ∷ rest) }
{
    let Some((n, rest)) = leading_number(bytes) else {
        return None;
    };
    if n > greatest {
        return None;
    }
    match after(&[end], rest) {
        Some(rest) => Some((n, rest)),
        None => None,
    }
}

/// The number that is at most the greatest one and stands between this text and this byte, and what follows the byte.
pub fn number_between<'a>(
    text: &[u8],
    end: u8,
    bytes: &'a [u8],
    greatest: u64,
) -> Option<(u64, &'a [u8])>
    requires { BeginsWithNoDigit (end ∷ []) }
    ensures found { IfSome result
        (λ found. (bytes.now ≡ text.now ++ (decimal found.0 ++ end ∷ found.1.now))
        × (found.0 ≤ greatest)) }
    ensures none { IfNone result
        ((n : ℕ) (rest : List ℕ) → n ≤ greatest
        → bytes.now ≢ text.now ++ (decimal n ++ end ∷ rest)) }
{
    match after(text, bytes) {
        Some(word) => number_before(end, word, greatest),
        None => None,
    }
}
