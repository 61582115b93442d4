//! The controller's record as one word.

ghost use Rattle.std.specs.Prelude.{◌≡◌, ◌<◌, ◌^◌, length, IfSome, MatchOption};
ghost use Rattle.kp_model.specs.World.{most_nodes, LeaderAndIsr as ModelRecord};
ghost use Rattle.kp_model.specs.Step.{IsInRange};
ghost use Rattle.kp_model.specs.Set.{members_of, record_of};
ghost use Rattle.kp_control.specs.Word.{packed, set_field, WordsAreOne};

use kp_model::{Leader, LeaderAndIsr, NodeSet};
use kp_types::{Epoch, MOST_NODES, NodeId};

const NO_LEADER: u64 = 15;

/// A record in range is told by its word. It costs nothing.
pub fn words_are_one()
    ensures { WordsAreOne }
{}

/// A bit for each node of the set, that of node 0 the lowest.
fn bits(set: &NodeSet) -> u64
    ensures value { result ≡ set_field (members_of set.now) }
    ensures small { result < 128 }
{
    let [zero, one, two, three, four, five, six] = set.members;
    u64::from(zero)
        + 2 * u64::from(one)
        + 4 * u64::from(two)
        + 8 * u64::from(three)
        + 16 * u64::from(four)
        + 32 * u64::from(five)
        + 64 * u64::from(six)
}

/// The set that has these bits, below 128.
fn of_bits(bits: u64) -> NodeSet
    requires { bits < 128 }
    ensures value { set_field (members_of result) ≡ bits }
    ensures places { length result.members ≡ most_nodes }
{
    NodeSet {
        members: [
            bits % 2 == 1,
            bits / 2 % 2 == 1,
            bits / 4 % 2 == 1,
            bits / 8 % 2 == 1,
            bits / 16 % 2 == 1,
            bits / 32 % 2 == 1,
            bits / 64 % 2 == 1,
        ],
    }
}

/// The record as one word: bits 63 to 60 have the leader, 15 for none; bits 59 to 52 the in-sync replicas, bit 52 + n
/// for node n; bits 51 to 28 the leader epoch and 1, 0 for none; bits 27 to 0 the version. (Own rule.)
pub fn pack(known: &LeaderAndIsr) -> u64
    ensures { result ≡ packed (record_of known.now) }
{
    let (leader, epoch) = match known.leader {
        None => (NO_LEADER, 0),
        Some(leader) => (u64::from(leader.node), u64::from(leader.epoch) + 1),
    };
    let fields = epoch + 0x100_0000 * (bits(&known.isr) + 0x100 * leader);
    u64::from(known.version) + 0x1000_0000 * fields
}

/// The record whose word this is; none where it is no record's.
pub fn unpack(word: u64) -> Option<LeaderAndIsr>
    ensures packed { IfSome result (λ r. packed (record_of r) ≡ word) }
    ensures read { (r : ModelRecord) → IsInRange most_nodes r → packed r ≡ word
        → MatchOption result ⊥ (λ known. record_of known ≡ r) }
{
    let version = (word % 0x1000_0000) as u32;
    let after = word / 0x1000_0000 % 0x100_0000;
    let bits = word / 0x10_0000_0000_0000 % 0x100;
    let node = word / 0x1000_0000_0000_0000;
    if bits >= 128 {
        return None;
    }
    let isr = of_bits(bits);
    if node == NO_LEADER && after == 0 {
        return Some(LeaderAndIsr {
            leader: None,
            isr,
            version,
        });
    }
    if node >= MOST_NODES as u64 || after == 0 {
        return None;
    }
    let leader = Some(Leader {
        node: node as NodeId,
        epoch: (after - 1) as Epoch,
    });
    Some(LeaderAndIsr {
        leader,
        isr,
        version,
    })
}
