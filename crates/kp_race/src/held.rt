//! What a node holds as committed.

ghost use Rattle.std.specs.Prelude.{◌≡◌, ◌++◌, IfErr, IfOk, OnErr, OnOk, map};
ghost use Rattle.kp_types.specs.declared.refusal.Refusal.TheVariants.{Memory};
ghost use Rattle.kp_model.specs.Beginning.{Begins};
ghost use Rattle.kp_model.specs.Log.{logged};
ghost use Rattle.kp_model.specs.Run.{held};
ghost use Rattle.kp_node.specs.Acks.{SawHeld};
ghost use Rattle.kp_race.specs.Agreement.{ReadsOn, committed_as};

use crate::agreement::Committed;
use kp_batch::Batch;
use kp_board::{BoardName, Pass};
use kp_node::Node;
use kp_types::{Offset, Refusal};
use std::alloc::Global;

// Puts batches behind those of the list. F33.
fn push_all(list: &mut Vec<Committed>, batches: &Vec<Batch>) -> Result<(), Refusal>
    ensures ok { OnOk result (list.new.items ≡ list.old.items ++ map committed_as (map logged batches.now.items)) }
    ensures only { IfErr result (λ refusal. refusal ≡ Memory) }
{
    for batch in batches {
        list.push(Committed::of(batch))?;
    }
    Ok(())
}

// Puts what the node reads from an offset on behind the list, and tells where to read next.
fn read_on<B: BoardName>(
    node: &mut Node<B>,
    pass: &mut Pass<B>,
    list: &mut Vec<Committed>,
    from: Offset,
) -> Result<Option<Offset>, Refusal>
    ensures same { node.new ≡ node.old }
    ensures ok { IfOk result (λ next. ReadsOn (held node.old.node.state) from list.old.items list.new.items next) }
    ensures saw { OnOk result (SawHeld pass.old pass.new node.old.pass) }
{
    let _end = node.log().end_offset(); // it is a log's
    let piece = node.read(pass, from)?;
    let Some(last) = piece.last() else {
        return Ok(None);
    };
    let next = last.base_offset().saturating_add(u64::from(last.count()));
    push_all(list, &piece)?;
    Ok(Some(next))
}

/// All batches below the node's high watermark, by as many reads as that takes. The caller's pass has then seen a list that begins
/// with them, and that goes on from what it had seen before. F28, F33.
pub(crate) fn held_by<B: BoardName>(
    alloc: Global,
    node: &mut Node<B>,
    pass: &mut Pass<B>,
) -> Result<Vec<Committed>, Refusal>
    ensures same { node.new ≡ node.old }
    ensures all { IfOk result (λ list. list.items ≡ map committed_as (held node.old.node.state)) }
    ensures seen { OnOk result (Begins (held node.old.node.state) pass.new.seen × Begins pass.old.seen pass.new.seen) }
{
    let _end = node.log().end_offset(); // it is a log's
    let mut list = Vec::new(alloc);
    let mut from = 0u64;
    while let Some(next) = read_on(node, pass, &mut list, from)? {
        from = next;
    }
    Ok(list)
}
