//! Bytes as hexadecimal digits in lower case, two for each.

ghost use Rattle.std.specs.Prelude.{◌≡◌, ◌<◌, IfOk};
ghost use Rattle.std.specs.List.{list_all};
ghost use Rattle.kp_script.specs.Hex.{is_hex_digit, is_hex, hex_value, bytes_of};

use std::alloc::{AllocError, Global};

/// Whether the byte is a digit, 0 to 9 or a to f.
fn is_hex_digit(digit: u8) -> bool
    ensures { result ≡ is_hex_digit digit }
{
    (b'0' <= digit && digit <= b'9') || (b'a' <= digit && digit <= b'f')
}

/// Whether each byte is a digit, 0 to 9 or a to f.
fn are_hex_digits(digits: &[u8]) -> bool
    ensures { result ≡ list_all is_hex_digit digits.now }
{
    digits.iter().all(|digit| is_hex_digit(*digit))
}

/// Whether these are digits, 0 to 9 and a to f, of an even number that isn't 0. Takes time proportional to their
/// number, and no memory.
pub(crate) fn is_hex(digits: &[u8]) -> bool
    ensures { result ≡ is_hex digits.now }
{
    !digits.is_empty() && digits.len() % 2 == 0 && are_hex_digits(digits)
}

/// The number below 16 that a digit stands for. What is no digit counts as 0.
fn hex_value(digit: u8) -> u8
    ensures value { result ≡ hex_value digit }
    ensures small { result < 16 }
{
    match digit {
        b'0'..=b'9' => digit - b'0',
        b'a'..=b'f' => digit - b'a' + 10,
        _ => 0,
    }
}

/// The bytes that the digits spell, each by two of them. A last digit without another one is left out, and what is
/// no digit counts as 0. Takes time and memory proportional to their number, and fails where memory runs out.
pub(crate) fn bytes_of(alloc: Global, digits: &[u8]) -> Result<Vec<u8>, AllocError>
    ensures { IfOk result (λ bytes. bytes.items ≡ bytes_of digits.now) }
{
    let mut bytes = Vec::with_capacity(alloc, digits.len() / 2)?;
    let mut rest = digits;
    while let [high, low, after @ ..] = rest {
        bytes.push(16 * hex_value(*high) + hex_value(*low))?;
        rest = after;
    }
    Ok(bytes)
}
