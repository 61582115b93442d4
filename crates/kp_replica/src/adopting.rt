//! When a node takes up the controller's record, and what part it then plays.

use crate::replica::{Following, Leading, Mode, Replica};
use kp_insync::Positions;
use kp_model::{Leader, LeaderAndIsr};
use kp_types::{Epoch, NodeId, Offset, Refusal};

/// The part that a node took up.
#[derive(Clone, Copy, PartialEq, Eq)]
pub enum Role {
    /// It leads from its log's end on.
    Leads { epoch: Epoch, start: Offset },
    /// It follows this leader, from whom it fetches.
    Follows { leader: NodeId, epoch: Epoch },
}

impl Replica {
    ghost use Rattle.std.specs.Prelude.{◌≡◌, MatchOption, OnOk, OnErr, Some, true, false};
    ghost use Rattle.kp_types.specs.Causes.{IsRefusedOnlyBy};
    ghost use Rattle.kp_model.specs.Calls.{adopted};
    ghost use Rattle.kp_model.specs.Event.{Adopt};
    ghost use Rattle.kp_model.specs.Effect.{becomes};
    ghost use Rattle.kp_model.specs.Adopting.{is_news};
    ghost use Rattle.kp_model.specs.Set.{record_of};
    ghost use Rattle.kp_replica.specs.Adopting.{IsWithin, adopt_cause};
    ghost use Rattle.kp_replica.specs.NumberedNode.{DoesUnder, IsSameNode};
    ghost use Rattle.kp_replica.specs.Replies.{role_reply};

    /// The record's leader, where its epoch is news to the node. O(1).
    fn news(&self, controller: &LeaderAndIsr) -> Option<Leader>
        ensures { MatchOption result
            (is_news (record_of controller.now) self.now.number self.now.state ≡ false)
            (λ leader. (is_news (record_of controller.now) self.now.number self.now.state ≡ true)
            × (controller.now.leader ≡ Some leader)) }
    {
        let leader = controller.leader?;
        let taken_up = if leader.node == self.number {
            self.kept_epoch
        } else {
            self.mode.epoch()
        };
        let is_news = match taken_up {
            None => true,
            Some(epoch) => epoch < leader.epoch,
        };
        is_news.then_some(leader)
    }

    /// Takes up a record that has a leader. Where it names this node, its epoch has to be above the one that the node last took
    /// up, in whatever life: who led and was restarted leads again only after a new election. Where it names another one, the
    /// epoch has to be above the node's own, which an idle node hasn't. Else F22, and F22 also where the node would lead in an
    /// epoch below its log's last one, which no record of a run asks for. A new leadership has no reports, and nothing is
    /// pending. O(1), and no memory (Kafka replication design, KIP-320; own: the epoch that is kept, the last test).
    pub fn adopt(&mut self, controller: &LeaderAndIsr) -> Result<Role, Refusal>
        ensures refused { IsRefusedOnlyBy
            (adopt_cause (record_of controller.now) self.old.number self.old.state) result }
        ensures adopted { OnOk result (becomes self.new.state (role_reply result)
            ≡ adopted (record_of controller.now) self.old.number self.old.state) }
        ensures same { OnErr result (self.new ≡ self.old) }
        ensures event { IsWithin (record_of controller.now) self.old.state.log
            → DoesUnder (record_of controller.now) self.old self.new Adopt (role_reply result) }
        ensures node { IsSameNode self.old self.new }
    {
        let Some(leader) = self.news(controller) else {
            return Err(Refusal::StaleRecord);
        };
        let Leader { node, epoch } = leader;
        if node == self.number {
            if epoch < self.log.last_epoch().unwrap_or(0) {
                return Err(Refusal::StaleRecord);
            }
            let start = self.log.end_offset();
            self.kept_epoch = Some(epoch);
            self.mode = Mode::Leads(Leading {
                epoch,
                isr: controller.isr,
                version: controller.version,
                pending: None,
                start,
                positions: Positions::new(),
            });
            return Ok(Role::Leads { epoch, start });
        }
        self.kept_epoch = Some(epoch);
        self.mode = Mode::Follows(Following {
            leader: node,
            epoch,
        });
        Ok(Role::Follows {
            leader: node,
            epoch,
        })
    }
}
