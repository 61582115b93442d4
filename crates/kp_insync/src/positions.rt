//! The log ends that nodes reported.

use kp_model::NodeSet;
use kp_types::{NODE_PLACES, NodeId, Offset, Refusal};
use std::marker::Model;

/// The log end that each other node reported in one leadership, by the node's number: an optional number for each node that
/// there may be, and no memory of the heap.
#[derive(Clone, Copy)]
pub struct Positions {
    ends: [Option<Offset>; NODE_PLACES],
}

impl Model for Positions {
    ghost use Rattle.std.specs.Prelude.{◌≡◌, ℕ, List, Option, length};
    ghost use Rattle.kp_model.specs.World.{most_nodes};

    ghost Value = { List (Option ℕ) };

    ghost view = { λ p. p.ends };

    ghost invariant = { λ p. length p.ends ≡ most_nodes };

    ghost inverse = { λ reported. record { ends = reported } };
}

impl Positions {
    ghost use Rattle.std.specs.Prelude.{◌≡◌, ◌⊎◌, ◌<◌, ℕ, Some, IfSome, OnOk};
    ghost use Rattle.std.specs.Option.{option_copied};
    ghost use Rattle.kp_types.specs.Causes.{IsRefusedOnlyBy};
    ghost use Rattle.kp_model.specs.Set.{members_of};
    ghost use Rattle.kp_model.specs.World.{most_nodes, no_reports};
    ghost use Rattle.kp_model.specs.Raising.{least_end};
    ghost use Rattle.kp_insync.specs.Reports.{with_report, ends_over, members_in, IsReported};
    ghost use Rattle.kp_insync.specs.Joining.{behind_cause};

    /// None has reported yet.
    pub fn new() -> Positions
        ensures { result ≡ no_reports }
    {
        Positions {
            ends: [None; NODE_PLACES],
        }
    }

    /// What each node reported, by its number; none where it has reported nothing. O(1).
    pub fn all(&self) -> [Option<Offset>; NODE_PLACES]
        ensures { result ≡ self.now }
    {
        self.ends
    }

    /// The node reports that its log ends at this offset: the greatest that it reported is kept. A number that no node has,
    /// from [`kp_types::MOST_NODES`] on, changes nothing.
    pub fn report(&mut self, node: NodeId, end: Offset)
        ensures { self.new ≡ with_report self.old node end }
    {
        let place = usize::from(node);
        if place < self.ends.len() {
            let greatest = self.ends[place].unwrap_or(0).max(end);
            self.ends[place] = Some(greatest);
        }
    }

    /// The least of this end and of those that the set's members but the own node reported: none where one of them has not
    /// reported. One pass over the places.
    fn least_with(&self, set: &NodeSet, own: NodeId, end: Offset) -> Option<Offset>
        ensures least { result ≡ least_end (ends_over (members_of set.now) own end self.now) }
        ensures known { IfSome result (λ least. (least ≡ end) ⊎ IsReported self.now least) }
    {
        let mut least = end;
        let members = set.members.as_slice();
        for (place, member) in members.iter().enumerate() {
            if *member && place != usize::from(own) {
                let reported = self.ends.get(place).copied().flatten()?;
                least = least.min(reported);
            }
        }
        Some(least)
    }

    /// The least log end over the known set and the pending one, if there is one, where the own log ends at `end`: none where
    /// another member of either has not reported. It is the own end or one that was reported. The own end counts also where
    /// neither set has the own node. One pass over the places for each set, and no memory.
    pub fn least_end(
        &self,
        known: &NodeSet,
        pending: Option<&NodeSet>,
        own: NodeId,
        end: Offset,
    ) -> Option<Offset>
        ensures least { result
            ≡ least_end (ends_over (members_in known.now (option_copied pending.entry)) own end self.now) }
        ensures known { IfSome result (λ least. (least ≡ end) ⊎ IsReported self.now least) }
    {
        let least = self.least_with(known, own, end)?;
        match pending {
            Some(pending) => self.least_with(pending, own, least),
            None => Some(least),
        }
    }

    /// Whether the node may join the in-sync replicas of a leader with this high watermark, which began to lead at the offset
    /// `start` of its log: it has reported an end that is below neither. F23 where it hasn't. A node that no leader could
    /// have heard of, from [`kp_types::MOST_NODES`] on, never may. O(1), and no memory (own rule; Kafka's leader asks for both
    /// bounds too).
    pub fn may_join(&self, node: NodeId, watermark: Offset, start: Offset) -> Result<(), Refusal>
        ensures refused { IsRefusedOnlyBy (behind_cause self.now node watermark start) result }
        ensures numbered { OnOk result (node < most_nodes) }
    {
        let reported = self.ends.get(usize::from(node)).copied().flatten();
        match reported {
            Some(end) if watermark <= end && start <= end => Ok(()),
            _ => Err(Refusal::NotCaughtUp),
        }
    }
}
