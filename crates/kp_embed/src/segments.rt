//! A node's log as segments.
ghost use Rattle.std.specs.Prelude.{◌≡◌, Result};
ghost use Rattle.kp_types.specs.declared.refusal.Refusal.{Refusal};
ghost use Rattle.kp_handles.specs.Numbers.{answer_number};
ghost use Rattle.kp_handles.specs.Segments.{SegmentCalled, SegmentsCalled};
ghost use Rattle.kp_handles.specs.declared.misuse.Misuse.{Misuse};

use crate::answers::number;
use kp_handles::{Handle, ShareSegments, give_by_node, segment};
use std::alloc::Global;
use std::marker::Brand;

/// Puts a node's log as segments into a closed handle.
#[unsafe(no_mangle)]
pub extern "C" fn kp_segments(alloc: Global, node: &mut Handle, segments: &mut Handle) -> u32
    ensures called { (answer : Result (Result (Unit {0}) Refusal) Misuse) × (result ≡ answer_number answer)
        × SegmentsCalled node.old.object node.new.object segments.old.object segments.new.object answer }
    ensures cluster { node.new.table ≡ node.old.table }
{
    number(give_by_node::<Brand, _>(alloc, node, segments, ShareSegments { alloc }))
}

/// Writes the name of a segment's file, and puts the segment's batches into a closed handle.
#[unsafe(no_mangle)]
pub extern "C" fn kp_segment(
    alloc: Global,
    segments: &mut Handle,
    index: usize,
    name: &mut [u8],
    batches: &mut Handle,
) -> u32
    ensures called { (answer : Result (Result (Unit {0}) Refusal) Misuse) × (result ≡ answer_number answer)
        × SegmentCalled segments.old.object index name.old name.new batches.old.object batches.new.object answer }
    ensures same { segments.new.object ≡ segments.old.object }
{
    number(segment::<Brand>(alloc, segments, index, name, batches))
}
