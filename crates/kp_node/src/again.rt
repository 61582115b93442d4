//! How a host opens again what a process has left.

ghost use Rattle.std.specs.Prelude.{◌≡◌, ◌+◌, ◌*◌, ◌≤◌, map, length, IfOk, IfErr};
ghost use Rattle.kp_types.specs.declared.refusal.Refusal.TheVariants.{Memory};
ghost use Rattle.kp_model.specs.World.{most_nodes};
ghost use Rattle.kp_model.specs.Set.{record_of};
ghost use Rattle.kp_node.specs.Again.{WereLeft, opening_of};

use kp_board::OpenedAgain;
use kp_model::LeaderAndIsr;
use kp_replica::KeptNode;
use kp_types::{Offset, Refusal};
use std::alloc::Global;
use std::marker::Brand;

/// What a process promised before it ended: a list that some node of it held. It costs nothing.
pub trait Promise {
    ghost use Rattle.std.specs.Prelude.{List};
    ghost use Rattle.kp_model.specs.Log.{Batch};

    ghost list: { List Batch };
}

impl Promise for Brand {
    ghost use Rattle.std.specs.Prelude.{[]};

    ghost list = { [] };
}

// The nodes' high watermarks.
fn marks_of(alloc: Global, nodes: &[KeptNode]) -> Result<Vec<Offset>, Refusal>
    ensures marks { IfOk result (λ v. v.items ≡ map (λ m. m.state.watermark) nodes.now) }
    ensures only { IfErr result (λ refusal. refusal ≡ Memory) }
{
    let mut marks = Vec::with_capacity(alloc, nodes.len())?;
    for node in nodes {
        marks.push(node.watermark())?;
    }
    Ok(marks)
}

/// The words of a board that opens with these nodes, 0 to 7, which some process has left with this record, and which are in their
/// next lives. F33 is the only refusal. `_said` is read by nobody: a caller names what was promised by what it hands in there. (Own rule.)
pub fn open_again<E: Promise, T>(
    alloc: Global,
    controller: &LeaderAndIsr,
    nodes: &[KeptNode],
    _said: &T,
) -> Result<OpenedAgain, Refusal>
    requires small { length nodes.now ≤ most_nodes }
    requires left { WereLeft (record_of controller.now) nodes.now E.list }
    ensures made { IfOk result (λ o. (o.words ≡ 2 * length nodes.now + 1)
        × (o.opening ≡ opening_of (record_of controller.now) nodes.now E.list)) }
    ensures only { IfErr result (λ refusal. refusal ≡ Memory) }
{
    kp_model::left_ones_go_on();
    let marks = marks_of(alloc, nodes)?;
    OpenedAgain::new::<Brand, &[KeptNode]>(alloc, controller, &marks, &nodes)
}
