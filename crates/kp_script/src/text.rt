//! The words of a text that grows: numbers in decimal digits, and bytes in hexadecimal ones.

ghost use Rattle.std.specs.Prelude.{◌≡◌, ◌+◌, ◌/◌, ◌%◌, ◌<◌, ◌≤◌, ℕ, List, [], ◌∷◌, ◌++◌, length, OnOk, vec_capacity, vec_len};
ghost use Rattle.std.specs.Fmt.{decimal};
ghost use Rattle.kp_words.specs.Words.{hex_text};

use itoa::Buffer;
use std::alloc::AllocError;

/// Numbers below this one are short: they have at most [`SHORT_DIGITS`].
const SHORT: u64 = 1_000_000;

/// How many digits a short number has at most.
const SHORT_DIGITS: usize = 6;

/// How many bytes a line has at most that says which short number stands at which other.
const SHORT_LINE: usize = 2 * SHORT_DIGITS + 5;

/// The numbers below 100, two digits for each.
static PAIRS: [u8; 200] =
    *b"00010203040506070809101112131415161718192021222324252627282930313233343536373839404142434445464748495051525354555657585960616263646566676869707172737475767778798081828384858687888990919293949596979899";

/// What is copied where digits are to stand.
const ZEROS: [u8; 32] = [0; 32];

/// Appends two digits, for which there is room.
#[inline(always)]
fn put_pair(text: &mut Vec<u8>, pair: u64)
    requires small { pair < 100 }
    requires room { vec_len text.old + 2 ≤ vec_capacity text.old }
    ensures items { text.new.items ≡ text.old.items ++ (48 + pair / 10) ∷ (48 + pair % 10) ∷ [] }
    ensures len { vec_len text.new ≡ vec_len text.old + 2 }
    ensures capacity { vec_capacity text.new ≡ vec_capacity text.old }
{
    let from = 2 * pair as usize;
    let (tens, ones) = (PAIRS[from], PAIRS[from + 1]);
    text.push_reserved(tens);
    text.push_reserved(ones);
}

/// Appends a number of one digit or two, for which there is room.
#[inline(always)]
fn put_first(text: &mut Vec<u8>, number: u64)
    requires small { number < 100 }
    requires room { vec_len text.old + 2 ≤ vec_capacity text.old }
    ensures items { text.new.items ≡ text.old.items ++ decimal number }
    ensures len { vec_len text.new ≤ vec_len text.old + 2 }
    ensures capacity { vec_capacity text.new ≡ vec_capacity text.old }
{
    if number < 10 {
        text.push_reserved(b'0' + number as u8);
    } else {
        put_pair(text, number);
    }
}

/// Appends a number of up to six digits, for which there is room.
#[inline(always)]
fn put_short(text: &mut Vec<u8>, number: u64)
    requires small { number < 1000000 }
    requires room { vec_len text.old + 6 ≤ vec_capacity text.old }
    ensures items { text.new.items ≡ text.old.items ++ decimal number }
    ensures len { vec_len text.new ≤ vec_len text.old + 6 }
    ensures capacity { vec_capacity text.new ≡ vec_capacity text.old }
{
    if number < 100 {
        put_first(text, number);
    } else if number < 10_000 {
        put_first(text, number / 100);
        put_pair(text, number % 100);
    } else {
        put_first(text, number / 10_000);
        put_pair(text, number % 10_000 / 100);
        put_pair(text, number % 100);
    }
}

/// Appends `at` between two spaces, for which there is room.
#[inline(always)]
fn put_at(text: &mut Vec<u8>)
    requires { vec_len text.old + 4 ≤ vec_capacity text.old }
    ensures items { text.new.items ≡ text.old.items ++ 32 ∷ 97 ∷ 116 ∷ 32 ∷ [] }
    ensures len { vec_len text.new ≡ vec_len text.old + 4 }
    ensures capacity { vec_capacity text.new ≡ vec_capacity text.old }
{
    text.push_reserved(b' ');
    text.push_reserved(b'a');
    text.push_reserved(b't');
    text.push_reserved(b' ');
}

/// Appends the number in decimal digits, however many.
#[inline(never)]
fn push_any_number(text: &mut Vec<u8>, number: u64) -> Result<(), AllocError>
    ensures { OnOk result (text.new.items ≡ text.old.items ++ decimal number) }
{
    let mut buffer = Buffer::new();
    text.extend_from_slice(buffer.format(number).as_bytes())
}

/// Appends the number in decimal digits. It takes no memory but the text's.
pub(crate) fn push_number(text: &mut Vec<u8>, number: u64) -> Result<(), AllocError>
    ensures { OnOk result (text.new.items ≡ text.old.items ++ decimal number) }
{
    if number < SHORT && text.capacity() - text.len() >= SHORT_DIGITS {
        put_short(text, number);
        return Ok(());
    }
    push_any_number(text, number)
}

/// Appends the first number, `at`, the second one, and a line feed, with a space between each two words. Where both are short, as
/// most are, room for all of it is tested once.
#[inline(always)]
pub(crate) fn push_at(text: &mut Vec<u8>, number: u64, at: u64) -> Result<(), AllocError>
    ensures { OnOk result (text.new.items
        ≡ text.old.items ++ (decimal number ++ (32 ∷ 97 ∷ 116 ∷ 32 ∷ decimal at) ++ 10 ∷ [])) }
{
    if number < SHORT && at < SHORT && text.capacity() - text.len() >= SHORT_LINE {
        put_short(text, number);
        put_at(text);
        put_short(text, at);
        text.push_reserved(b'\n');
        return Ok(());
    }
    push_number(text, number)?;
    push_named(text, b" at ", at)?;
    push_byte(text, b'\n')
}

/// Appends a space, and then the number in decimal digits. Where it is short, as most are, room for both is tested once.
#[inline(always)]
pub(crate) fn push_spaced(text: &mut Vec<u8>, number: u64) -> Result<(), AllocError>
    ensures { OnOk result (text.new.items ≡ text.old.items ++ 32 ∷ decimal number) }
{
    if number < SHORT && text.capacity() - text.len() > SHORT_DIGITS {
        text.push_reserved(b' ');
        put_short(text, number);
        return Ok(());
    }
    push_byte(text, b' ')?;
    push_number(text, number)
}

/// Appends a byte. It is put into its caller, as few bytes need more room.
#[inline(always)]
pub(crate) fn push_byte(text: &mut Vec<u8>, byte: u8) -> Result<(), AllocError>
    ensures { OnOk result (text.new.items ≡ text.old.items ++ byte ∷ []) }
{
    text.reserve(1)?;
    text.push_reserved(byte);
    Ok(())
}

/// Appends the word, and then the number in decimal digits.
pub(crate) fn push_named(text: &mut Vec<u8>, word: &[u8], number: u64) -> Result<(), AllocError>
    ensures { OnOk result (text.new.items ≡ text.old.items ++ (word.now ++ decimal number)) }
{
    text.extend_from_slice(word)?;
    push_number(text, number)
}

/// Appends so many zeros. As a rule they are few: then as many as are few are copied at once, and those that are too many go.
#[inline(always)]
fn push_zeros(text: &mut Vec<u8>, count: usize) -> Result<(), AllocError>
    ensures { OnOk result ((zeros : List ℕ) × (text.new.items ≡ text.old.items ++ zeros)
        × (length zeros ≡ count)) }
{
    let end = text.len().saturating_add(count);
    if count > ZEROS.len() {
        return text.resize(end, 0);
    }
    text.extend_from_slice(&ZEROS)?;
    text.truncate(end);
    Ok(())
}

/// Appends each byte as two hexadecimal digits. Room for all of them is made at once.
pub(crate) fn push_hex(text: &mut Vec<u8>, bytes: &[u8]) -> Result<(), AllocError>
    ensures { OnOk result (text.new.items ≡ text.old.items ++ hex_text bytes.now) }
{
    let start = text.len();
    push_zeros(text, bytes.len().saturating_mul(2))?;
    match hex::encode_to_slice(bytes, &mut text[start..]) {
        Ok(()) => Ok(()),
        Err(_) => Err(AllocError), // never: the room has two bytes for each
    }
}
