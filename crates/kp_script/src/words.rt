//! Readers of the words of a line that are a script's own.

ghost use Rattle.std.specs.Prelude.{◌≡◌, ◌≢◌, ℕ, ◌<◌, List, ◌∷◌, ◌++◌, Option, IfSome, IfNone};
ghost use Rattle.kp_script.specs.Call.{signed_text};

use kp_words::{after, number_then};

/// The producer field that stands before the first space, and what follows the space: -1, which is none, or a number
/// below the limit.
#[inline(always)]
pub fn signed_then(bytes: &[u8], limit: u64) -> Option<(Option<u64>, &[u8])>
    ensures found { IfSome result
        (λ found. (bytes.now ≡ signed_text found.0 ++ 32 ∷ found.1.now)
        × IfSome found.0 (λ n. n < limit)) }
    ensures none { IfNone result
        ((field : Option ℕ) (rest : List ℕ) → IfSome field (λ n. n < limit)
        → bytes.now ≢ signed_text field ++ 32 ∷ rest) }
{
    if let Some(rest) = after(b"-1 ", bytes) {
        return Some((None, rest));
    }
    match number_then(bytes, limit) {
        Some((n, rest)) => Some((Some(n), rest)),
        None => None,
    }
}
