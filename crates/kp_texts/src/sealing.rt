//! The last line of a text, which is the checksum of the lines before it.

ghost use Rattle.std.specs.Prelude.{◌≡◌, ◌≢◌, ◌<◌, ◌++◌, ℕ, List, [], ◌∷◌, codes, IfOk, IfSome, IfNone, string_bytes};
ghost use Rattle.std.specs.Int.{w32, to_be_bytes};
ghost use Rattle.kp_words.specs.Words.{hex_digit, hex_text};
ghost use Rattle.kp_texts.specs.Texts.{line, sealed};

use kp_crc::crc32c;
use std::alloc::AllocError;

/// How many bytes the last line has.
const SEAL_BYTES: usize = 13;

/// A number below 16 as a hexadecimal digit.
fn digit(number: u8) -> u8
    requires { number < 16 }
    ensures { result ≡ hex_digit number }
{
    if number < 10 {
        b'0' + number
    } else {
        b'a' - 10 + number
    }
}

/// The last line of a text with this sum.
fn seal_of(sum: u32) -> [u8; SEAL_BYTES]
    ensures { result ≡ line (codes "crc" ∷ hex_text (to_be_bytes w32 sum) ∷ []) }
{
    let [a, b, c, d] = sum.to_be_bytes();
    [
        b'c',
        b'r',
        b'c',
        b' ',
        digit(a / 16),
        digit(a % 16),
        digit(b / 16),
        digit(b % 16),
        digit(c / 16),
        digit(c % 16),
        digit(d / 16),
        digit(d % 16),
        b'\n',
    ]
}

/// The lines, and the line of their sum. Fails where memory runs out.
pub(crate) fn sealed(lines: String) -> Result<Vec<u8>, AllocError>
    ensures { IfOk result (λ text. text.items ≡ sealed (string_bytes lines)) }
{
    let mut text = lines.into_bytes();
    let seal = seal_of(crc32c(&text));
    text.extend_from_slice(&seal)?;
    Ok(text)
}

/// The lines before the last one, where that is their sum.
pub(crate) fn unsealed(text: &[u8]) -> Option<&[u8]>
    ensures found { IfSome result (λ lines. text.now ≡ sealed lines.now) }
    ensures none { IfNone result ((lines : List ℕ) → text.now ≢ sealed lines) }
{
    if text.len() < SEAL_BYTES {
        return None;
    }
    let (lines, seal) = text.split_at(text.len() - SEAL_BYTES);
    if seal == seal_of(crc32c(lines)).as_slice() {
        Some(lines)
    } else {
        None
    }
}
