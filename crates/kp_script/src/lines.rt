//! The lines that count, one after another.

ghost use Rattle.std.specs.Prelude.{◌≡◌, ◌+◌, ◌<◌, ◌≤◌, ◌^◌, [], ◌∷◌, length, nat_lt, IfSome, IfNone, IfOk, IfErr};
ghost use Rattle.std.specs.List.{list_all};
ghost use Rattle.kp_script.specs.Lines.{lines, is_passed_over, counted_from};

use kp_words::split_first_at;

/// How many bytes a line has at most, without its line feed.
pub const LONGEST_LINE: usize = 2_100_000;

/// A line that counts, its number, and what follows it.
#[derive(Clone, Copy)]
pub struct CountedLine<'a> {
    /// The line's number, from 1 on.
    pub number: u64,
    /// Its bytes, without the line feed.
    pub line: &'a [u8],
    /// The bytes behind it.
    pub rest: &'a [u8],
}

/// The first line, and what follows it.
fn first_line(bytes: &[u8]) -> Option<(&[u8], &[u8])>
    ensures found { IfSome result
        (λ parts. (lines bytes.now ≡ parts.0.now ∷ lines parts.1.now)
        × (length parts.1.now < length bytes.now)) }
    ensures none { IfNone result (bytes.now ≡ []) }
{
    if let Some((line, rest)) = split_first_at(b'\n', bytes) {
        return Some((line, rest));
    }
    if bytes.is_empty() {
        return None;
    }
    Some((bytes, &[]))
}

/// Whether each byte is below 128.
fn are_ascii(bytes: &[u8]) -> bool
    ensures { result ≡ list_all (λ byte. nat_lt byte 128) bytes.now }
{
    bytes.iter().all(|byte| *byte < 128)
}

/// Whether the line is empty or a comment.
pub(crate) fn is_passed_over(line: &[u8]) -> bool
    ensures { result ≡ is_passed_over line.now }
{
    (line.is_empty() || line[0] == b'#') && are_ascii(line) && line.len() <= LONGEST_LINE
}

/// The first line that counts, where the first line has this number; or the number after the last line's.
pub fn next_counted(bytes: &[u8], number: u64) -> Result<CountedLine<'_>, u64>
    requires { number + length bytes.now < 2 ^ 64 }
    ensures found { IfOk result
        (λ next. counted_from number bytes.now
        ≡ (next.number, next.line.now) ∷ counted_from (next.number + 1) next.rest.now) }
    ensures shorter { IfOk result (λ next. length next.rest.now < length bytes.now) }
    ensures room { IfOk result (λ next.
        next.number + 1 + length next.rest.now ≤ number + length bytes.now) }
    ensures end { IfErr result
        (λ after. (counted_from number bytes.now ≡ [])
        × (after ≡ number + length (lines bytes.now))) }
{
    let mut rest = bytes;
    let mut number = number;
    while let Some((line, after)) = first_line(rest) {
        if !is_passed_over(line) {
            return Ok(CountedLine {
                number,
                line,
                rest: after,
            });
        }
        rest = after;
        number += 1;
    }
    Err(number)
}
