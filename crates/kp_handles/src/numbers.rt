//! The numbers that calls answer.
ghost use Rattle.std.specs.Prelude.{◌≡◌, ◌++◌, ℕ, List, IfNone, IfSome, drop, length, min, take};
ghost use Rattle.kp_types.specs.Texts.{refusal_number};
ghost use Rattle.kp_handles.specs.Numbers.{IsName, IsNoMisuse, misuse_name, misuse_number};

use crate::misuse::Misuse;
use kp_types::Refusal;

/// A refusal's number, 1 to 35. O(1).
pub fn refusal_number(refusal: &Refusal) -> u32
    ensures { result ≡ refusal_number refusal.now }
{
    refusal.number()
}

/// A misuse's number, from 65 on. O(1).
pub fn misuse_number(misuse: &Misuse) -> u32
    ensures { result ≡ misuse_number misuse.now }
{
    match misuse {
        Misuse::Closed => 65,
        Misuse::OtherKind => 66,
        Misuse::InUse => 67,
        Misuse::NoRoom => 68,
        Misuse::OutOfRange => 69,
        Misuse::BadLength => 70,
    }
}

/// The misuse of this number. O(1).
fn misuse_of(number: u32) -> Option<Misuse>
    ensures some { IfSome result (λ why. misuse_number why ≡ number) }
    ensures none { IfNone result (IsNoMisuse number) }
{
    match number {
        65 => Some(Misuse::Closed),
        66 => Some(Misuse::OtherKind),
        67 => Some(Misuse::InUse),
        68 => Some(Misuse::NoRoom),
        69 => Some(Misuse::OutOfRange),
        70 => Some(Misuse::BadLength),
        _ => None,
    }
}

/// A misuse's number and name, as `F65 Closed`. O(1).
fn misuse_name(misuse: &Misuse) -> &'static str
    ensures { result.now ≡ misuse_name misuse.now }
{
    match misuse {
        Misuse::Closed => "F65 Closed",
        Misuse::OtherKind => "F66 OtherKind",
        Misuse::InUse => "F67 InUse",
        Misuse::NoRoom => "F68 NoRoom",
        Misuse::OutOfRange => "F69 OutOfRange",
        Misuse::BadLength => "F70 BadLength",
    }
}

/// The name of what a call answered, as `F22 StaleRecord`; empty for a number that none answers. O(1).
#[tactic(auto, using(crate::proofs::Names::of_done, crate::proofs::Names::of_refusal, crate::proofs::Names::of_misuse, crate::proofs::Names::of_none))]
fn name_of(number: u32) -> &'static str
    ensures { IsName number result.now }
{
    if number == 0 {
        return "F0 Done";
    }
    if let Some(refusal) = Refusal::of_number(number) {
        return refusal.head();
    }
    match misuse_of(number) {
        Some(misuse) => misuse_name(&misuse),
        None => "",
    }
}

/// Writes the name of what a call answered, as far as there is room, and answers how many bytes it wrote. O(1).
pub fn write_name(number: u32, to: &mut [u8]) -> usize
    ensures { (name : List ℕ) × IsName number name × (result ≡ min (length name) (length to.old))
        × (to.new ≡ take result name ++ drop result to.old) }
{
    let text = name_of(number).as_bytes();
    let count = text.len().min(to.len());
    to[..count].copy_from_slice(&text[..count]);
    count
}
