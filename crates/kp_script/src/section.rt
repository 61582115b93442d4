//! The events of a script as it keeps them: some thousand of them together, with the bytes of their values and digits.

ghost use Rattle.std.specs.Prelude.{◌≡◌, ◌<◌, ◌≤◌, [], ◌∷◌, ◌++◌, ℕ, List, length, slice_index_or, IfOk, IfSome, OnOk, OnErr, true};
ghost use Rattle.kp_script.specs.Call.{Call as SpelledCall};
ghost use Rattle.kp_script.specs.Seen.{seen_call, seen_line};
ghost use Rattle.kp_script.specs.Sections.{IsHeldBy, append_call, kept_call};

use crate::batches::LONGEST_VALUE;
use crate::call::{Call, Sender};
use crate::script::Line;
use kp_replica::PlainAct;
use kp_types::NodeId;
use std::alloc::{AllocError, Global};
use std::marker::Model;

/// Where bytes stand among those of a section: from this one on, up to the one before that one.
#[derive(Clone, Copy)]
struct Place {
    from: usize,
    to: usize,
}

/// What an event's line asks for, with the place of its values or digits in place of themselves.
#[derive(Clone, Copy)]
enum Asked {
    Elect {
        node: NodeId,
    },
    Append {
        node: NodeId,
        transactional: bool,
        lone: bool,
        time: u64,
        sender: Sender,
        values: Place,
    },
    Raw {
        node: NodeId,
        digits: Place,
    },
    Acts {
        node: NodeId,
        act: PlainAct,
    },
    Deliver {
        number: u64,
    },
}

/// An event: what its line asks for, and the number of the line.
#[derive(Clone, Copy)]
struct KeptLine {
    number: u64,
    asked: Asked,
}

// A script keeps up to a million of them.
const _: () = prove!(size_of::<KeptLine>() == 56);

/// The line of an append, whose values are one, or stand with a comma between each two. Most events of a script are appends of one
/// value of at most [`LONGEST_VALUE`] bytes.
#[derive(Clone, Copy)]
pub(crate) struct AppendLine<'a> {
    pub(crate) number: u64,
    pub(crate) node: NodeId,
    pub(crate) transactional: bool,
    pub(crate) time: u64,
    pub(crate) sender: Sender,
    pub(crate) values: &'a [u8],
}

impl<'a> Line<'a> {
    ghost use Rattle.std.specs.Prelude.{◌≡◌, ◌≤◌, length, IfSome, true};
    ghost use Rattle.kp_script.specs.Seen.{seen_line};
    ghost use Rattle.kp_script.specs.Sections.{append_call};

    /// The append, where it is one of one value that has at most [`LONGEST_VALUE`] bytes. O(1).
    pub(crate) fn lone(&self) -> Option<AppendLine<'a>>
        ensures lone { IfSome result (λ lone. seen_line self.now ≡ append_call true lone) }
        ensures short { IfSome result (λ lone. length lone.values.now ≤ 1000000) }
    {
        match self.call {
            Call::Append {
                node,
                transactional,
                lone: true,
                time,
                sender,
                values,
            } if values.len() <= LONGEST_VALUE => Some(AppendLine {
                number: self.number,
                node,
                transactional,
                time,
                sender,
                values,
            }),
            _ => None,
        }
    }
}

/// Some events of a script, one after another. The bytes of their values and digits are copied into it, so that the script's
/// text needn't stay.
pub struct Section {
    lines: Vec<KeptLine>,
    bytes: Vec<u8>,
}

// By hand, so that a function that drops a section calls this, and isn't proved with what drops each of its parts.
impl Drop for Section {
    fn drop(self) {
        let Section { lines: _, bytes: _ } = self;
    }
}

impl Model for Section {
    ghost use Rattle.std.specs.Prelude.{ℕ, List, map, true};
    ghost use Rattle.std.specs.List.{AllByRecursion};
    ghost use Rattle.kp_script.specs.Call.{Call};
    ghost use Rattle.kp_script.specs.Sections.{IsHeldBy, kept_line};

    ghost Value = { List (ℕ × Call) };

    ghost view = { λ section. map (kept_line section.bytes.items) section.lines.items };

    ghost invariant = { λ section. AllByRecursion
        (λ line. IsHeldBy section.bytes.items line.asked) section.lines.items };
}

/// Puts the bytes behind the others, and tells their place. It fails where memory runs out.
#[inline(always)]
fn hold(bytes: &mut Vec<u8>, more: &[u8]) -> Result<Place, AllocError>
    ensures grown { OnOk result (bytes.new.items ≡ bytes.old.items ++ more.now) }
    ensures from { IfOk result (λ place. place.from ≡ length bytes.old.items) }
    ensures to { IfOk result (λ place. place.to ≡ length bytes.new.items) }
    ensures err { OnErr result (bytes.new.items ≡ bytes.old.items) }
{
    let from = bytes.len();
    bytes.extend_from_slice(more)?;
    Ok(Place {
        from,
        to: bytes.len(),
    })
}

/// What the call asks for, its values or digits being put behind the bytes. It fails where memory runs out.
#[inline(always)]
fn keep(bytes: &mut Vec<u8>, call: &Call<'_>) -> Result<Asked, AllocError>
    ensures kept { IfOk result (λ asked. kept_call bytes.new.items asked ≡ seen_call call.now) }
    ensures held { IfOk result (IsHeldBy bytes.new.items) }
    ensures grown { OnOk result ((more : List ℕ) × (bytes.new.items ≡ bytes.old.items ++ more)) }
    ensures err { OnErr result (bytes.new.items ≡ bytes.old.items) }
{
    match *call {
        Call::Append {
            node,
            transactional,
            lone,
            time,
            sender,
            values,
        } => {
            let values = hold(bytes, values)?;
            Ok(Asked::Append {
                node,
                transactional,
                lone,
                time,
                sender,
                values,
            })
        }
        Call::Raw { node, digits } => {
            let digits = hold(bytes, digits)?;
            Ok(Asked::Raw { node, digits })
        }
        Call::Elect { node } => Ok(Asked::Elect { node }),
        Call::Acts { node, act } => Ok(Asked::Acts { node, act }),
        Call::Deliver { number } => Ok(Asked::Deliver { number }),
    }
}

/// The bytes at a place among these.
#[inline(always)]
fn bytes_at(bytes: &[u8], place: Place) -> &[u8]
    requires { (place.from ≤ place.to) × (place.to ≤ length bytes.now) }
    ensures { result.now ≡ Rattle.kp_script.specs.Sections.bytes_at bytes.now place }
{
    &bytes[place.from..place.to]
}

impl Asked {
    /// The call, with its values or digits, which stand among these bytes.
    #[inline(always)]
    fn call<'a>(&self, bytes: &'a [u8]) -> Call<'a>
        requires { IsHeldBy bytes.now self.now }
        ensures { seen_call result ≡ kept_call bytes.now self.now }
    {
        match *self {
            Asked::Append {
                node,
                transactional,
                lone,
                time,
                sender,
                values,
            } => Call::Append {
                node,
                transactional,
                lone,
                time,
                sender,
                values: bytes_at(bytes, values),
            },
            Asked::Raw { node, digits } => Call::Raw {
                node,
                digits: bytes_at(bytes, digits),
            },
            Asked::Elect { node } => Call::Elect { node },
            Asked::Acts { node, act } => Call::Acts { node, act },
            Asked::Deliver { number } => Call::Deliver { number },
        }
    }
}

impl Section {
    /// No event. It takes no memory.
    pub fn new(alloc: Global) -> Section
        ensures { result ≡ [] }
    {
        Section {
            lines: Vec::new(alloc),
            bytes: Vec::new(alloc),
        }
    }

    /// No event, with room for so many. It fails where memory runs out.
    pub(crate) fn with_capacity(alloc: Global, events: usize) -> Result<Section, AllocError>
        ensures { IfOk result (λ section. section ≡ []) }
    {
        Ok(Section {
            lines: Vec::with_capacity(alloc, events)?,
            bytes: Vec::new(alloc),
        })
    }

    /// How many events there are. O(1).
    pub fn len(&self) -> usize
        ensures { result ≡ length self.now }
    {
        self.lines.len()
    }

    /// Puts the event behind the others. It fails where memory runs out, and nothing changes then. O(n) in its values or digits,
    /// and 56 bytes besides.
    #[inline(always)]
    pub fn push(&mut self, line: Line<'_>) -> Result<(), AllocError>
        ensures pushed { OnOk result (self.new ≡ self.old ++ seen_line line.entry ∷ []) }
        ensures err { OnErr result (self.new ≡ self.old) }
    {
        self.lines.reserve(1)?;
        let asked = keep(&mut self.bytes, &line.call)?;
        self.lines.push_reserved(KeptLine {
            number: line.number,
            asked,
        });
        Ok(())
    }

    /// The event at this place, from 0, where it is an append of one value that has at most [`LONGEST_VALUE`] bytes. O(1), with no copy.
    #[inline(always)]
    pub(crate) fn lone(&self, at: usize) -> Option<AppendLine<'_>>
        requires { at < length self.now }
        ensures lone { IfSome result (λ lone. (other : ℕ × SpelledCall)
            → slice_index_or self.now at other ≡ append_call true lone) }
        ensures short { IfSome result (λ lone. length lone.values.now ≤ 1000000) }
    {
        let kept = &self.lines[at];
        match kept.asked {
            Asked::Append {
                node,
                transactional,
                lone: true,
                time,
                sender,
                values,
            } if values.to - values.from <= LONGEST_VALUE => Some(AppendLine {
                number: kept.number,
                node,
                transactional,
                time,
                sender,
                values: bytes_at(&self.bytes, values),
            }),
            _ => None,
        }
    }

    /// The event at this place, from 0. O(1), with no copy.
    #[inline(always)]
    pub fn line(&self, at: usize) -> Line<'_>
        requires { at < length self.now }
        ensures { (other : ℕ × SpelledCall) → seen_line result ≡ slice_index_or self.now at other }
    {
        let kept = &self.lines[at];
        Line {
            number: kept.number,
            call: kept.asked.call(&self.bytes),
        }
    }
}
