//! The reader of a set of nodes.

ghost use Rattle.std.specs.Prelude.{◌≡◌, ◌≢◌, ℕ, ◌<◌, ◌≤◌, List, map, IfSome, IfNone};
ghost use Rattle.std.specs.Fmt.{decimal};
ghost use Rattle.kp_model.specs.Set.{members_of};
ghost use Rattle.kp_model.specs.Step.{Rise};
ghost use Rattle.kp_model.specs.World.{most_nodes};
ghost use Rattle.kp_words.specs.Words.{pieces};
ghost use Rattle.kp_texts.specs.Texts.{listed};

use kp_model::NodeSet;
use kp_types::NodeId;
use kp_words::{number_below, split_first_at};

/// The node that the whole of these bytes name, one of so many and at least the least one.
fn member_of(piece: &[u8], least: NodeId, nodes: NodeId) -> Option<NodeId>
    ensures found { IfSome result
        (λ node. (piece.now ≡ decimal node) × (least ≤ node) × (node < nodes)) }
    ensures none { IfNone result
        ((node : ℕ) → least ≤ node → node < nodes → piece.now ≢ decimal node) }
{
    match number_below(piece, u64::from(nodes)) {
        Some(node) if node >= u64::from(least) => Some(node as NodeId),
        _ => None,
    }
}

/// The nodes that the pieces between the commas name, in rising order.
fn members_in(word: &[u8], nodes: NodeId) -> Option<NodeSet>
    requires { nodes ≤ most_nodes }
    ensures found { IfSome result (λ set. (pieces word.now ≡ map decimal (members_of set))
        × Rise 0 nodes (members_of set)) }
    ensures none { IfNone result ((members : List ℕ) → Rise 0 nodes members
        → pieces word.now ≢ map decimal members) }
{
    let mut set = NodeSet::first(0);
    let mut least = 0;
    let mut rest = word;
    while let Some((piece, others)) = split_first_at(b',', rest) {
        let Some(node) = member_of(piece, least, nodes) else {
            return None;
        };
        set = set.with(node);
        least = node + 1;
        rest = others;
    }
    match member_of(rest, least, nodes) {
        Some(node) => Some(set.with(node)),
        None => None,
    }
}

/// The nodes that the whole of these bytes name, in rising order: a comma between each two, or `none`.
pub(crate) fn members_named(word: &[u8], nodes: NodeId) -> Option<NodeSet>
    requires { nodes ≤ most_nodes }
    ensures found { IfSome result (λ set. (word.now ≡ listed (map decimal (members_of set)))
        × Rise 0 nodes (members_of set)) }
    ensures none { IfNone result ((members : List ℕ) → Rise 0 nodes members
        → word.now ≢ listed (map decimal members)) }
{
    if word == b"none".as_slice() {
        return Some(NodeSet::first(0));
    }
    members_in(word, nodes)
}
