//! How the controller's record changes by an election.

ghost use Rattle.std.specs.Prelude.{◌≡◌, IfOk};
ghost use Rattle.kp_types.specs.Causes.{IsRefusedOnlyBy};
ghost use Rattle.kp_model.specs.Controller.{elected};
ghost use Rattle.kp_model.specs.Set.{record_of};
ghost use Rattle.kp_model.specs.Step.{elect_cause};

use kp_model::{Leader, LeaderAndIsr};
use kp_types::{GREATEST_EPOCH, GREATEST_VERSION, NodeId, Refusal};

/// The record after this node's election, which takes the next epoch. F21 where the node isn't in sync,
/// F24 where epoch or version is at its greatest.
pub fn elected(current: &LeaderAndIsr, node: NodeId) -> Result<LeaderAndIsr, Refusal>
    ensures refused { IsRefusedOnlyBy (elect_cause (record_of current.now) node) result }
    ensures elected { IfOk result (λ changed. record_of changed
        ≡ elected (record_of current.now) node) }
{
    if !current.isr.contains(node) {
        return Err(Refusal::NotInSync);
    }
    let epoch = match current.leader {
        None => 0,
        Some(leader) => leader.epoch + 1,
    };
    if epoch > GREATEST_EPOCH || current.version >= GREATEST_VERSION {
        return Err(Refusal::RecordFull);
    }
    Ok(LeaderAndIsr {
        leader: Some(Leader { node, epoch }),
        isr: current.isr,
        version: current.version + 1,
    })
}
