//! A node's log as segments.

ghost use Rattle.std.specs.Prelude.{◌≡◌, IfOk, IfErr, IfSome};
ghost use Rattle.kp_types.specs.declared.refusal.Refusal.TheVariants.{Memory};
ghost use Rattle.kp_segment.specs.Runs.{AreRunsOf};
ghost use Rattle.kp_handles.specs.Segments.{GivesSegment, SegmentCalled, SegmentMet};

use crate::calling::{Called, GivenByNode, put_made};
use crate::handle::{Handle, Unnamed, is_open, put, take};
use crate::holding::copy_front;
use crate::misuse::Misuse;
use crate::object::{Kind, Object, boxed};
use kp_batch::{Batch, share_all};
use kp_board::BoardName;
use kp_log::PartitionLog;
use kp_node::Node;
use kp_segment::SegmentName;
use kp_types::Refusal;
use std::alloc::Global;
use std::marker::Model;

/// A segment by its name, with shares of its batches.
#[derive(Drop)]
pub struct SegmentShare {
    pub(crate) name: SegmentName,
    pub(crate) batches: Vec<Batch>,
}

impl Model for SegmentShare {
    ghost use Rattle.std.specs.Prelude.{List};
    ghost use Rattle.kp_batch.specs.Batch.{Written};
    ghost use Rattle.kp_segment.specs.declared.name.SegmentName.{SegmentName as Name};

    ghost Value = { Name × List Written };

    ghost view = { λ s. (s.name, s.batches.items) };
}

// The log's segments, with shares of all its batches: O(n) in those, and no byte is copied.
fn shares_of(alloc: Global, log: &PartitionLog) -> Result<Vec<SegmentShare>, Refusal>
    ensures shared { IfOk result (λ shares. AreRunsOf log.now.limits log.now.log shares.items) }
    ensures only { IfErr result (λ refusal. refusal ≡ Memory) }
{
    let mut shares = Vec::new(alloc);
    for (name, batches) in log.tables().segments().runs() {
        let batches = share_all(alloc, batches)?;
        shares.push(SegmentShare { name, batches })?;
    }
    Ok(shares)
}

/// The node's log as segments, with shares of all its batches. F33. O(batches).
#[derive(Drop)]
pub struct ShareSegments {
    pub alloc: Global,
}

impl GivenByNode for ShareSegments {
    ghost use Rattle.std.specs.Prelude.{List};
    ghost use Rattle.kp_batch.specs.Batch.{Written};
    ghost use Rattle.kp_segment.specs.declared.name.SegmentName.{SegmentName as Name};
    ghost use Rattle.kp_handles.specs.Objects.{segments};
    ghost use Rattle.kp_handles.specs.Segments.{TellsSegments};

    ghost Found = { List (Name × List Written) };

    ghost held = { segments };

    ghost gives = { λ _. TellsSegments };

    fn ask<B: BoardName>(self, node: &mut Node<B>) -> Result<Object<B>, Refusal> {
        match shares_of(self.alloc, node.log()) {
            Ok(shares) => Ok(Object {
                kind: Kind::Segments(shares),
            }),
            Err(refusal) => Err(refusal),
        }
    }
}

// Shares of the segment's batches, once the name of its file is known to fit.
fn given<B: BoardName>(alloc: Global, share: &SegmentShare, to: &mut [u8]) -> Called<Box<Object<B>>>
    ensures { GivesSegment share.now to.old to.new result }
{
    let Ok(text) = format!(in alloc; "{}", share.name) else {
        return Ok(Err(Refusal::Memory));
    };
    if to.len() < text.as_bytes().len() {
        return Err(Misuse::BadLength);
    }
    match share_all(alloc, &share.batches) {
        Ok(batches) => {
            let kind = Kind::Batches(batches);
            let Some(made) = boxed(alloc, Object { kind }) else {
                return Err(Misuse::NoRoom);
            };
            copy_front(text.as_bytes(), to)?;
            Ok(Ok(made))
        }
        Err(refusal) => Ok(Err(refusal)),
    }
}

fn segment_object<B: BoardName>(
    alloc: Global,
    object: &Object<B>,
    index: usize,
    to: &mut [u8],
) -> Called<Box<Object<B>>>
    ensures { SegmentMet object.now index to.old to.new result }
{
    match &object.kind {
        Kind::Segments(shares) => match shares.get(index) {
            Some(share) => given(alloc, share, to),
            None => Err(Misuse::OutOfRange),
        },
        _ => Err(Misuse::OtherKind),
    }
}

/// Writes the name of the file of the segment at this index, 24 bytes, and puts the segment's batches into a closed handle. F33; InUse,
/// Closed, OtherKind, OutOfRange, NoRoom; BadLength where the name doesn't fit. O(its batches).
pub fn segment<B: BoardName + Unnamed>(
    alloc: Global,
    handle: &mut Handle,
    index: usize,
    to: &mut [u8],
    out: &mut Handle,
) -> Called<()>
    requires { IfSome handle.old.object (λ _. handle.old.table ≡ B.table) }
    ensures called { SegmentCalled handle.old.object index to.old to.new out.old.object out.new.object result }
    ensures same { handle.new.object ≡ handle.old.object }
{
    if is_open(out) {
        return Err(Misuse::InUse);
    }
    let Some(object) = take::<B>(alloc, handle) else {
        return Err(Misuse::Closed);
    };
    let answer = segment_object(alloc, &object, index, to);
    put(handle, object);
    put_made(out, answer)
}
