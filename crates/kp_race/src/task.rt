//! What each thread of a race is to do.

ghost use Rattle.std.specs.Prelude.{◌≡◌, ◌<◌, ◌%◌, IfErr, IfOk, None, Some, map};
ghost use Rattle.kp_types.specs.declared.refusal.Refusal.TheVariants.{Memory};
ghost use Rattle.kp_race.specs.Tasks.{tasks_of};

use crate::outcome::Plan;
use kp_types::{NodeId, Refusal};
use std::alloc::Global;

/// A producer's, by its number and its batches; or the mover's of the leadership, by its elections.
#[derive(Clone, Copy)]
pub(crate) enum Task {
    Produce { number: u8, batches: u16 },
    Move { moves: u16 },
}

/// The producers' and, last, the mover's. F33.
pub(crate) fn tasks(alloc: Global, plan: &Plan) -> Result<Vec<Task>, Refusal>
    ensures all { IfOk result (λ tasks. tasks.items ≡ tasks_of plan.now) }
    ensures only { IfErr result (λ refusal. refusal ≡ Memory) }
{
    let mut tasks = Vec::new(alloc);
    for number in 0..plan.producers {
        tasks.push(Task::Produce {
            number,
            batches: plan.batches,
        })?;
    }
    tasks.push(Task::Move { moves: plan.moves })?;
    Ok(tasks)
}

/// Of which node the election of this number is, where there is one.
pub(crate) fn elected_at(number: u16, nodes: NodeId) -> Option<NodeId>
    ensures none { nodes ≡ 0 → result ≡ None }
    ensures some { 0 < nodes → result ≡ Some (number % nodes) }
{
    if nodes == 0 {
        return None;
    }
    Some((number % u16::from(nodes)) as NodeId)
}
