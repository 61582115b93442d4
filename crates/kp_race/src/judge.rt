//! What the nodes say once their workers have ended.

ghost use Rattle.std.specs.Prelude.{◌≡◌, ◌≢◌, ◌⊎◌, ◌<◌, ◌≤◌, ℕ, All, Any, IfErr, IfOk, OnOk, IsTrue, Ok, Err, count_by, length, map, slice_index, sum_by, true, vec_len};
ghost use Rattle.std.specs.List.{list_any};
ghost use Rattle.kp_model.specs.Beginning.{Begins};
ghost use Rattle.kp_node.specs.declared.ack.Ack.TheVariants.{Yes};
ghost use Rattle.kp_node.specs.Acks.{is_receipts};
ghost use Rattle.kp_race.specs.Agreement.{committed_as};
ghost use Rattle.kp_race.specs.Counting.{at_most_64};

use crate::agreement::{Committed, do_agree};
use crate::held::held_by;
use crate::outcome::Outcome;
use crate::racer::{Reached, Shared};
use kp_board::{Board, BoardName, Pass};
use kp_cluster::bring_up;
use kp_node::{Ack, Node};
use kp_replica::Receipt;
use kp_types::{NodeId, Offset, Refusal};
use std::alloc::Global;
use std::sync::Wait;

fn is_yes(ack: Ack) -> bool
    ensures { IsTrue result → ack ≡ Yes }
{
    match ack {
        Ack::Yes => true,
        Ack::Lost | Ack::NotYet => false,
    }
}

// Whether the node says that the batch stands. Then the list that the pass has seen has one of its offset and leader epoch.
fn is_acked_by<B: BoardName>(node: &mut Node<B>, pass: &mut Pass<B>, receipt: &Receipt) -> bool
    ensures stands { IsTrue result → list_any (is_receipts receipt.now) pass.new.seen ≡ true }
    ensures seen { Begins pass.old.seen pass.new.seen }
{
    let _log = node.log(); // its pass shows it
    match node.acked(pass, receipt) {
        Ok(ack) => is_yes(ack),
        Err(_) => false,
    }
}

// Whether some node says so.
fn is_acked<B: BoardName, R: Wait>(
    rt: &R,
    nodes: &Vec<Shared<B>>,
    pass: &mut Pass<B>,
    receipt: &Receipt,
) -> bool
    ensures stands { IsTrue result → list_any (is_receipts receipt.now) pass.new.seen ≡ true }
    ensures seen { Begins pass.old.seen pass.new.seen }
{
    for node in nodes {
        if is_acked_by(&mut node.lock(rt), pass, receipt) {
            return true;
        }
    }
    false
}

// For how many of the receipts one says so.
fn count_acked<B: BoardName, R: Wait>(
    rt: &R,
    nodes: &Vec<Shared<B>>,
    pass: &mut Pass<B>,
    receipts: &[Receipt],
) -> u64
    ensures stand { result ≤ count_by (λ r. list_any (is_receipts r) pass.new.seen) receipts.now }
    ensures few { result ≤ length receipts.now }
{
    let mut acknowledged = 0u64;
    for receipt in receipts {
        if is_acked(rt, nodes, pass, receipt) {
            acknowledged += 1;
        }
    }
    acknowledged
}

// The batches that each node holds as committed. The pass has then seen a list that begins with each.
fn lists_of<B: BoardName, R: Wait>(
    rt: &R,
    alloc: Global,
    nodes: &Vec<Shared<B>>,
    pass: &mut Pass<B>,
) -> Result<Vec<Vec<Committed>>, Refusal>
    ensures each { IfOk result (λ lists. vec_len lists ≡ vec_len nodes.now) }
    ensures seen { IfOk result (λ lists. All (λ list. Begins list.items (map committed_as pass.new.seen)) lists.items) }
{
    let mut lists = Vec::new(alloc);
    for node in nodes {
        let list = held_by(alloc, &mut node.lock(rt), pass)?;
        lists.push(list)?;
    }
    Ok(lists)
}

// The greatest high watermark that the pass is shown of the board's nodes.
fn greatest_watermark<B: BoardName>(board: &Board<B>, pass: &mut Pass<B>) -> Offset
    ensures greatest { (node : ℕ) → node < board.now → slice_index pass.new.marks node ≤ result }
    ensures some { (result ≡ 0) ⊎ ((node : ℕ) × (node < board.now) × (slice_index pass.new.marks node ≡ result)) }
{
    let mut greatest = 0;
    for node in 0..board.nodes() {
        greatest = greatest.max(board.watermark(pass, node));
    }
    greatest
}

// Refused by whatever ended a thread.
fn all_ended<B: BoardName>(reached: &Vec<Reached<B>>) -> Result<(), Refusal>
    ensures ok { OnOk result (All (λ one. one.ended ≡ Ok tt) reached.now.items) }
    ensures err { IfErr result (λ refusal. Any (λ one. one.ended ≡ Err refusal) reached.now.items) }
{
    for one in reached {
        match one.ended {
            Ok(()) => {}
            Err(refusal) => return Err(refusal),
        }
    }
    Ok(())
}

// How many receipts there are, and for how many a node says that the batch is committed.
fn counted<B: BoardName, R: Wait>(
    rt: &R,
    nodes: &Vec<Shared<B>>,
    reached: Vec<Reached<B>>,
) -> (u64, u64)
    ensures acknowledged { result.1 ≤ result.0 }
    ensures receipts { result.0 ≡ at_most_64 (sum_by (λ one. vec_len one.receipts) reached.items) }
{
    let mut receipts = 0u64;
    let mut acknowledged = 0u64;
    for one in reached {
        let Reached {
            mut pass,
            receipts: own,
            ended: _,
        } = one;
        let count = count_acked(rt, nodes, &mut pass, &own);
        receipts = receipts.saturating_add(own.len() as u64);
        acknowledged = acknowledged.saturating_add(count);
    }
    (receipts, acknowledged)
}

// A node that a refused growth brought down is started again, so that it can be asked. F33.
fn bring_all_up<B: BoardName, R: Wait>(rt: &R, nodes: &Vec<Shared<B>>) -> Result<(), Refusal> {
    for node in nodes {
        bring_up(&mut node.lock(rt))?;
    }
    Ok(())
}

/// Asks the nodes, whose workers have ended. All that they hold as committed begins one list, so they agree.
pub(crate) fn judge<B: BoardName, R: Wait>(
    rt: &R,
    alloc: Global,
    board: &Board<B>,
    pass: &mut Pass<B>,
    nodes: &Vec<Shared<B>>,
    reached: Vec<Reached<B>>,
) -> Result<Outcome, Refusal>
    ensures nodes { IfOk result (λ o. o.nodes ≡ board.now) }
    ensures receipts { IfOk result (λ o. o.receipts ≡ at_most_64 (sum_by (λ one. vec_len one.receipts) reached.items)) }
    ensures acknowledged { IfOk result (λ o. o.acknowledged ≤ o.receipts) }
    ensures agree { IfOk result (λ o. o.agree ≡ true) }
    ensures ended { OnOk result (All (λ one. one.ended ≡ Ok tt) reached.items) }
{
    all_ended(&reached)?;
    bring_all_up(rt, nodes)?;
    let (receipts, acknowledged) = counted(rt, nodes, reached);
    let committed = greatest_watermark(board, pass);
    let lists = lists_of(rt, alloc, nodes, pass)?;
    let agree = do_agree(&lists);
    let nodes: NodeId = board.nodes();
    Ok(Outcome {
        nodes,
        receipts,
        acknowledged,
        committed,
        agree,
    })
}
