//! A handle.
ghost use Rattle.std.specs.Prelude.{◌≡◌, ◌⊎◌, Option, Some, None, IfNone, IfSome, true};
ghost use Rattle.kp_board.specs.Opening.{BoardId};
ghost use Rattle.kp_handles.specs.Objects.{ObjectView, word_of, is_open};

use crate::loose::Loose;
use crate::object::Object;
use kp_board::BoardName;
use std::alloc::Global;
use std::marker::{Brand, Model};

/// A board's name of which nothing is known but its table.
pub trait Unnamed {
    ghost use Rattle.std.specs.Prelude.{◌≡◌};
    ghost use Rattle.std.specs.declared.marker.Brand.{Brand};

    ghost unnamed: { Self ≡ Brand };
}

impl Unnamed for Brand {
    ghost use mathlib.Core.Path.{refl};

    ghost unnamed = { refl };
}

/// A handle: all zero it is closed, and owns nothing; else it owns what lies at its pointer.
#[repr(C)]
#[derive(Drop)]
pub struct Handle {
    at: *mut u8,
    state: u64,
    pub ghost table: { BoardId },
    pub ghost object: { Option ObjectView },
    pub ghost tied: { state ≡ word_of object },
}

impl Model for Handle {
    ghost use Rattle.kp_handles.specs.Rows.{object_owns};

    ghost also_owns = { λ h. object_owns h.table h.at h.object };
}

// All that it owns may cross threads, whatever it holds: boards are shared by atomic words, batches by atomic counts.
unsafe impl Send for Handle {}

// A closed handle.
pub(crate) fn closed() -> Handle
    ensures { result.object ≡ None }
{
    Handle {
        at: std::ptr::null_mut(),
        state: 0,
    }
}

/// Whether the handle is open. O(1).
pub fn is_open(handle: &mut Handle) -> bool
    ensures same { handle.new ≡ handle.old }
    ensures value { result ≡ is_open handle.old.object }
{
    handle.state != 0
}

// A handle of what lies there.
fn of_loose<B: BoardName + Unnamed>(loose: Loose<Object<B>, Global>) -> Handle
    ensures object { result.object ≡ Some loose.value }
    ensures table { result.table ≡ B.table }
{
    let Loose { at, alloc: _ } = loose;
    Handle {
        at: at as *mut u8,
        state: 1,
    }
}

// What an open handle owns.
fn into_loose<B: BoardName + Unnamed>(alloc: Global, handle: Handle) -> Loose<Object<B>, Global>
    requires opened { is_open handle.object ≡ true }
    requires table { handle.table ≡ B.table }
    ensures { handle.object ≡ Some result.value }
{
    let Handle { at, state: _ } = handle;
    Loose {
        at: at as *mut Object<B>,
        alloc,
    }
}

/// Takes what the handle holds, and leaves it closed; none where it is closed.
pub(crate) fn take<B: BoardName + Unnamed>(
    alloc: Global,
    handle: &mut Handle,
) -> Option<Box<Object<B>>>
    requires { IfSome handle.old.object (λ _. handle.old.table ≡ B.table) }
    ensures open { IfSome result (λ b. (handle.old.object ≡ Some b.value) × (handle.new.object ≡ None)) }
    ensures closed { IfNone result (handle.old.object ≡ None) }
    ensures same { IfNone result (handle.new ≡ handle.old) }
{
    if !is_open(handle) {
        return None;
    }
    let held = std::mem::replace(handle, closed());
    Some(into_loose::<B>(alloc, held).into_box())
}

/// Puts it into a handle.
pub(crate) fn put<B: BoardName + Unnamed>(handle: &mut Handle, object: Box<Object<B>>)
    requires { handle.old.object ≡ None }
    ensures object { handle.new.object ≡ Some object.value }
    ensures table { handle.new.table ≡ B.table }
{
    *handle = of_loose(Loose::of(object));
}

/// Takes what two handles hold, and leaves both closed; none where one of them is closed.
pub(crate) fn take_two<B: BoardName + Unnamed>(
    alloc: Global,
    one: &mut Handle,
    other: &mut Handle,
) -> Option<(Box<Object<B>>, Box<Object<B>>)>
    requires one { IfSome one.old.object (λ _. one.old.table ≡ B.table) }
    requires other { IfSome other.old.object (λ _. other.old.table ≡ B.table) }
    ensures taken { IfSome result (λ r. (one.old.object ≡ Some r.0.value) × (other.old.object ≡ Some r.1.value)
        × (one.new.object ≡ None) × (other.new.object ≡ None)) }
    ensures closed { IfNone result ((one.old.object ≡ None) ⊎ (other.old.object ≡ None)) }
    ensures same { IfNone result ((one.new.object ≡ one.old.object) × (other.new ≡ other.old)) }
    ensures table { IfNone result (one.new.table ≡ one.old.table) }
{
    let Some(first) = take::<B>(alloc, one) else {
        return None;
    };
    match take::<B>(alloc, other) {
        Some(second) => Some((first, second)),
        None => {
            put(one, first);
            None
        }
    }
}
