//! The controller's record: who leads in which epoch, and who is in sync.

ghost use Rattle.std.specs.Prelude.{◌≡◌, ◌+◌, ◌<◌, ◌≤◌, ◌^◌, length};
ghost use Rattle.std.specs.Option.{ForSome};
ghost use Rattle.kp_model.specs.World.{most_nodes};

use kp_types::{Epoch, NODE_PLACES, NodeId};

// A place for each node. It costs nothing.
fn places(members: [bool; NODE_PLACES])
    ensures { length members ≡ most_nodes }
{
    let _first = members[0];
}

/// A set of nodes.
#[derive(Clone, Copy, PartialEq, Eq)]
pub struct NodeSet {
    /// Whether each node is in it, by its number.
    pub members: [bool; NODE_PLACES],
}

impl NodeSet {
    ghost use Rattle.std.specs.Prelude.{◌≡◌, ◌<◌, ◌≤◌, IsTrue};
    ghost use Rattle.std.specs.List.{range_with_len};
    ghost use Rattle.kp_model.specs.World.{most_nodes};
    ghost use Rattle.kp_model.specs.Controller.{is_member, with_member, without_member};
    ghost use Rattle.kp_model.specs.Set.{members_of};

    /// The nodes 0 to `count` - 1.
    pub fn first(count: NodeId) -> NodeSet
        requires { count ≤ most_nodes }
        ensures { members_of result ≡ range_with_len 0 count }
    {
        NodeSet {
            members: [
                0 < count,
                1 < count,
                2 < count,
                3 < count,
                4 < count,
                5 < count,
                6 < count,
            ],
        }
    }

    /// Whether the node is in it.
    pub fn contains(&self, node: NodeId) -> bool
        ensures value { result ≡ is_member node (members_of self.now) }
        ensures within { IsTrue result → node < most_nodes }
    {
        self.members
            .get(usize::from(node))
            .copied()
            .unwrap_or(false)
    }

    /// The set with this node in it, whether or not it was. O(1), and no memory.
    pub fn with(&self, node: NodeId) -> NodeSet
        requires { node < most_nodes }
        ensures { members_of result ≡ with_member node (members_of self.now) }
    {
        let mut members = self.members;
        members[usize::from(node)] = true;
        NodeSet { members }
    }

    /// The set without this node, whether or not it was in it. O(1), and no memory.
    pub fn without(&self, node: NodeId) -> NodeSet
        ensures { members_of result ≡ without_member node (members_of self.now) }
    {
        let mut members = self.members;
        let place = usize::from(node);
        if place < members.len() {
            members[place] = false;
        }
        NodeSet { members }
    }
}

/// Who leads, in which leader epoch.
#[derive(Clone, Copy, PartialEq, Eq)]
pub struct Leader {
    /// The number of the node that leads.
    pub node: NodeId,
    /// Its leader epoch.
    pub epoch: Epoch,
}

/// The controller's record. Every change raises its version. (Kafka replication design.)
#[derive(Clone, Copy, PartialEq, Eq)]
pub struct LeaderAndIsr {
    /// None before the first election.
    pub leader: Option<Leader>,
    /// The in-sync replicas.
    pub isr: NodeSet,
    /// Every change raises it by 1; below 2^28.
    pub version: u32,
    pub ghost lawful: { ForSome leader (λ l. l.epoch + 1 < 2 ^ 24) },
    pub ghost numbered: { ForSome leader (λ l. l.node < most_nodes) },
    pub ghost counted: { version < 2 ^ 28 },
}

impl LeaderAndIsr {
    ghost use Rattle.std.specs.Prelude.{◌≡◌, ◌≤◌};
    ghost use Rattle.kp_model.specs.World.{initial, most_nodes};
    ghost use Rattle.kp_model.specs.Controller.{has_epoch, same_record};
    ghost use Rattle.kp_model.specs.Step.{IsInRange};
    ghost use Rattle.kp_model.specs.Set.{record_of};

    /// The record before the first election: no leader, all nodes in sync, version 0.
    pub fn initial(count: NodeId) -> LeaderAndIsr
        requires { count ≤ most_nodes }
        ensures { record_of result ≡ initial count }
    {
        LeaderAndIsr {
            leader: None,
            isr: NodeSet::first(count),
            version: 0,
        }
    }

    /// Whether a leader has been elected in this epoch and none after it.
    pub fn has_epoch(&self, epoch: Option<Epoch>) -> bool
        ensures { result ≡ has_epoch (record_of self.now) epoch }
    {
        match self.leader {
            None => false,
            Some(leader) => Some(leader.epoch) == epoch,
        }
    }

    /// Whether the other record is this one: the same leader in the same epoch, the same in-sync replicas and version. O(1).
    pub fn is_same(&self, other: &LeaderAndIsr) -> bool
        ensures { result ≡ same_record (record_of self.now) (record_of other.now) }
    {
        self == other
    }

    /// The record names nodes that there may be, its set in rising order, and its numbers stay within their limits. It costs nothing.
    pub fn is_in_range(&self)
        ensures { IsInRange most_nodes (record_of self.now) }
    {
        places(self.isr.members);
    }
}
