//! The bytes of a batch, copied and tested before a node gets them.

ghost use Rattle.std.specs.Prelude.{◌≡◌, true, None, Some, length, IfSome, IfOk, IfErr, OnOk, OnErr};
ghost use Rattle.kp_handles.specs.Handing.{BadHand, IsFree};
ghost use Rattle.kp_handles.specs.Objects.{handed, is_open};
ghost use Rattle.kp_handles.specs.PairCalls.{BadBytes, FitsBatch};

use crate::handle::{Handle, Unnamed, is_open, put, take};
use crate::looking::SeenOf;
use crate::misuse::Misuse;
use crate::object::{InHand, Kind, Object, filled, room};
use bytes::BytesMut;
use kp_batch::Handed;
use kp_board::BoardName;
use std::alloc::Global;

// The most bytes of a batch: its length field, a signed one of four bytes, doesn't count the first twelve.
const MOST_BYTES: usize = 2_147_483_659;

/// The bytes, copied once, behind the last ones of the block or into a new one.
pub(crate) fn copied(block: &mut BytesMut, bytes: &[u8]) -> Result<Handed, Misuse>
    ensures copied { IfOk result (λ copy. copy ≡ bytes.now) }
    ensures fits { OnOk result (FitsBatch (length bytes.now)) }
    ensures only { IfErr result (BadBytes (length bytes.now)) }
{
    if bytes.len() > MOST_BYTES {
        return Err(Misuse::BadLength);
    }
    match Handed::copied(block, bytes) {
        Ok(copy) => Ok(copy),
        Err(_) => Err(Misuse::NoRoom),
    }
}

// The bytes, copied and tested, in place of those that were in hand.
fn take_up(hand: &mut InHand, bytes: &[u8]) -> Result<(), Misuse>
    ensures handed { OnOk result (hand.new ≡ bytes.now) }
    ensures fits { OnOk result (FitsBatch (length bytes.now)) }
    ensures same { OnErr result (hand.new ≡ hand.old) }
    ensures only { IfErr result (BadBytes (length bytes.now)) }
{
    let copy = copied(&mut hand.block, bytes)?;
    hand.bytes = copy.tested();
    Ok(())
}

#[tactic(auto, using(crate::proofs::Bad::hand_again, crate::proofs::Bad::hand_used))]
fn hand_object<B: BoardName>(object: &mut Object<B>, bytes: &[u8]) -> Result<(), Misuse>
    ensures handed { OnOk result (object.new ≡ handed bytes.now) }
    ensures fits { OnOk result (FitsBatch (length bytes.now)) }
    ensures free { OnOk result (IsFree (Some object.old)) }
    ensures same { OnErr result (object.new ≡ object.old) }
    ensures only { IfErr result (BadHand (length bytes.now) (Some object.old)) }
{
    match &mut object.kind {
        Kind::Handed(hand) => take_up(hand, bytes),
        _ => Err(Misuse::InUse),
    }
}

// Puts the bytes into an open handle, in place of those that it holds.
#[tactic(auto, using(crate::proofs::Bad::hand_bad, crate::proofs::Bad::is_free))]
fn hand_again<B: BoardName + Unnamed>(
    alloc: Global,
    handle: &mut Handle,
    bytes: &[u8],
) -> Result<(), Misuse>
    requires table { IfSome handle.old.object (λ _. handle.old.table ≡ B.table) }
    requires open { is_open handle.old.object ≡ true }
    ensures handed { OnOk result (handle.new.object ≡ Some (handed bytes.now)) }
    ensures fits { OnOk result (FitsBatch (length bytes.now)) }
    ensures free { OnOk result (IsFree handle.old.object) }
    ensures same { OnErr result (handle.new.object ≡ handle.old.object) }
    ensures only { IfErr result (BadHand (length bytes.now) handle.old.object) }
{
    let Some(mut object) = take::<B>(alloc, handle) else {
        return Err(Misuse::Closed);
    };
    let done = hand_object(&mut object, bytes);
    put(handle, object);
    done
}

// What holds the bytes, copied and tested.
fn in_hand(alloc: Global, bytes: &[u8]) -> Result<InHand, Misuse>
    ensures handed { IfOk result (λ hand. hand ≡ bytes.now) }
    ensures fits { OnOk result (FitsBatch (length bytes.now)) }
    ensures only { IfErr result (BadBytes (length bytes.now)) }
{
    let mut block = BytesMut::new(alloc);
    match copied(&mut block, bytes) {
        Ok(copy) => Ok(InHand {
            bytes: copy.tested(),
            block,
        }),
        Err(misuse) => Err(misuse),
    }
}

// Puts the bytes into a closed handle. Room for the handle is taken last, once no byte is too many.
#[tactic(auto, using(crate::proofs::Bad::hand_anew, crate::proofs::Bad::hand_room))]
fn hand_anew<B: BoardName + Unnamed>(
    alloc: Global,
    handle: &mut Handle,
    bytes: &[u8],
) -> Result<(), Misuse>
    requires { handle.old.object ≡ None }
    ensures handed { OnOk result (handle.new.object ≡ Some (handed bytes.now)) }
    ensures fits { OnOk result (FitsBatch (length bytes.now)) }
    ensures same { OnErr result (handle.new.object ≡ handle.old.object) }
    ensures only { IfErr result (BadHand (length bytes.now) handle.old.object) }
{
    match in_hand(alloc, bytes) {
        Ok(hand) => {
            let Some(made) = room::<B>(alloc) else {
                return Err(Misuse::NoRoom);
            };
            let kind = Kind::Handed(hand);
            put(handle, filled(made, Object { kind }));
            Ok(())
        }
        Err(misuse) => Err(misuse),
    }
}

/// Copies a batch's bytes into a handle that is closed, or in place of those that it holds, and tests them, as by `Handed::tested`.
/// InUse where it holds anything else, NoRoom; BadLength above 2,147,483,659 bytes. O(bytes).
pub fn hand<B: BoardName + Unnamed>(
    alloc: Global,
    handle: &mut Handle,
    bytes: &[u8],
) -> Result<(), Misuse>
    requires { IfSome handle.old.object (λ _. handle.old.table ≡ B.table) }
    ensures handed { OnOk result (handle.new.object ≡ Some (handed bytes.now)) }
    ensures fits { OnOk result (FitsBatch (length bytes.now)) }
    ensures free { OnOk result (IsFree handle.old.object) }
    ensures same { OnErr result (handle.new.object ≡ handle.old.object) }
    ensures only { IfErr result (BadHand (length bytes.now) handle.old.object) }
{
    if is_open(handle) {
        hand_again::<B>(alloc, handle, bytes)
    } else {
        hand_anew::<B>(alloc, handle, bytes)
    }
}

/// A share of the bytes. OtherKind, NoRoom. O(1).
#[derive(Drop)]
pub(crate) struct Share;

impl SeenOf<Handed> for Share {
    ghost use mathlib.Core.Path.{refl};
    ghost use Rattle.std.specs.Prelude.{◌≡◌, Some};
    ghost use Rattle.kp_handles.specs.Handing.{BadShare};
    ghost use Rattle.kp_handles.specs.Objects.{handed};

    ghost sees = { λ _ o bytes. o ≡ Some (handed bytes) };

    ghost fails = { λ _. BadShare };

    ghost closed = { λ _. refl };

    fn look<B: BoardName>(self, object: &Object<B>) -> Result<Handed, Misuse> {
        match &object.kind {
            Kind::Handed(hand) => match hand.bytes.share() {
                Ok(shared) => Ok(shared),
                Err(_) => Err(Misuse::NoRoom),
            },
            _ => Err(Misuse::OtherKind),
        }
    }
}
