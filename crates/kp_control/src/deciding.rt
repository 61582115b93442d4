//! How the controller's record changes by a proposal that it follows.

ghost use Rattle.std.specs.Prelude.{◌≡◌, IfOk};
ghost use Rattle.kp_types.specs.Causes.{IsRefusedOnlyBy};
ghost use Rattle.kp_model.specs.Controller.{altered};
ghost use Rattle.kp_model.specs.Letter.{decision_of, proposal_of};
ghost use Rattle.kp_model.specs.Set.{members_of, record_of};
ghost use Rattle.kp_model.specs.Step.{decide_cause, decision};
ghost use Rattle.kp_control.specs.Altering.{alter_cause};

use kp_model::{Decision, LeaderAndIsr, NodeSet, Proposal};
use kp_types::{GREATEST_VERSION, Refusal};

/// The record with these in-sync replicas, under the same leader in the same epoch. F24 where the version is at its
/// greatest. O(1), and no memory.
fn altered(current: &LeaderAndIsr, isr: NodeSet) -> Result<LeaderAndIsr, Refusal>
    ensures refused { IsRefusedOnlyBy (alter_cause (record_of current.now)) result }
    ensures altered { IfOk result (λ changed. record_of changed
        ≡ altered (record_of current.now) (members_of isr)) }
{
    if current.version >= GREATEST_VERSION {
        return Err(Refusal::RecordFull);
    }
    Ok(LeaderAndIsr {
        leader: current.leader,
        isr,
        version: current.version + 1,
    })
}

/// What the controller, whose record this is, decides on the proposal: the record takes the proposed set where it still is
/// the one that the proposal names, and else stays as it is. F24 where it would change and its version is at its greatest.
/// O(1), and no memory.
pub fn decided(current: &LeaderAndIsr, proposal: &Proposal) -> Result<Decision, Refusal>
    ensures refused { IsRefusedOnlyBy (decide_cause (record_of current.now) (proposal_of proposal.now)) result }
    ensures decided { IfOk result (λ made. decision_of made
        ≡ decision (record_of current.now) (proposal_of proposal.now)) }
{
    let decided = if current.is_same(&proposal.known) {
        altered(current, proposal.isr)?
    } else {
        *current
    };
    Ok(Decision {
        proposal: *proposal,
        decided,
    })
}
