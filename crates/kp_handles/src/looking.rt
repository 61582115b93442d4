//! What comes of what a handle holds, which stays as it is.

ghost use Rattle.std.specs.Prelude.{◌≡◌, IfErr, IfOk, IfSome, OnErr, OnOk, length};

use crate::handle::{Handle, Unnamed, put, take};
use crate::misuse::Misuse;
use crate::object::Object;
use kp_board::BoardName;
use std::alloc::Global;

/// What is seen of an object, or why it isn't.
pub trait SeenOf<T> {
    ghost use Rattle.std.specs.Prelude.{Option, None, Some, IfErr, IfOk};
    ghost use Rattle.kp_handles.specs.Objects.{ObjectView};
    ghost use Rattle.kp_handles.specs.declared.misuse.Misuse.{Misuse};
    ghost use Rattle.kp_handles.specs.declared.misuse.Misuse.TheVariants.{Closed};

    ghost sees: { Self → Option ObjectView → T → Type 0 };

    ghost fails: { Self → Option ObjectView → Misuse → Type 0 };

    fn look<B: BoardName>(self, object: &Object<B>) -> Result<T, Misuse>
        ensures found { IfOk result (Self.sees self (Some object.now)) }
        ensures only { IfErr result (Self.fails self (Some object.now)) };

    ghost closed: { (what : Self) → Self.fails what None Closed };
}

/// What is written of an object, or why it isn't.
pub trait WrittenOf {
    ghost use Rattle.std.specs.Prelude.{◌≡◌, Option, None, Some, List, ℕ, length, IfErr, OnErr, OnOk};
    ghost use Rattle.kp_handles.specs.Objects.{ObjectView};
    ghost use Rattle.kp_handles.specs.declared.misuse.Misuse.{Misuse};
    ghost use Rattle.kp_handles.specs.declared.misuse.Misuse.TheVariants.{Closed};

    ghost writes: { Self → Option ObjectView → (old new : List ℕ) → Type 0 };

    ghost fails: { Self → (places : ℕ) → Option ObjectView → Misuse → Type 0 };

    fn write<B: BoardName>(self, object: &Object<B>, to: &mut [u8]) -> Result<(), Misuse>
        ensures written { OnOk result (Self.writes self (Some object.now) to.old to.new) }
        ensures only { IfErr result (Self.fails self (length to.old) (Some object.now)) }
        ensures same { OnErr result (to.new ≡ to.old) };

    ghost closed: { (what : Self) → (places : ℕ) → Self.fails what places None Closed };
}

/// Looks at the object that the handle holds. Closed. O(1) beside the look.
pub fn look<B: BoardName + Unnamed, T, Q: SeenOf<T> + Drop>(
    alloc: Global,
    handle: &mut Handle,
    what: Q,
) -> Result<T, Misuse>
    requires { IfSome handle.old.object (λ _. handle.old.table ≡ B.table) }
    ensures found { IfOk result (Q.sees what handle.old.object) }
    ensures only { IfErr result (Q.fails what handle.old.object) }
    ensures same { handle.new.object ≡ handle.old.object }
    ensures cluster { handle.new.table ≡ handle.old.table }
{
    let Some(object) = take::<B>(alloc, handle) else {
        return Err(Misuse::Closed);
    };
    let found = what.look(&object);
    put(handle, object);
    found
}

/// Writes of the object that the handle holds to the front of the place. Closed, and nothing is written where it isn't all. O(1) beside
/// the bytes.
pub fn look_into<B: BoardName + Unnamed, Q: WrittenOf + Drop>(
    alloc: Global,
    handle: &mut Handle,
    what: Q,
    to: &mut [u8],
) -> Result<(), Misuse>
    requires { IfSome handle.old.object (λ _. handle.old.table ≡ B.table) }
    ensures written { OnOk result (Q.writes what handle.old.object to.old to.new) }
    ensures only { IfErr result (Q.fails what (length to.old) handle.old.object) }
    ensures same { handle.new.object ≡ handle.old.object }
    ensures refused { OnErr result (to.new ≡ to.old) }
    ensures cluster { handle.new.table ≡ handle.old.table }
{
    let Some(object) = take::<B>(alloc, handle) else {
        return Err(Misuse::Closed);
    };
    let done = what.write(&object, to);
    put(handle, object);
    done
}
