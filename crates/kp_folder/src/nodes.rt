//! The reader of nodes, and of all that a folder has.

ghost use Rattle.std.specs.Prelude.{◌≡◌, ◌≢◌, ◌⊎◌, ◌+◌, ◌<◌, ◌^◌, ℕ, [], false, length, map, true, IfErr, IfOk, IfSome, List, None, OnOk};
ghost use Rattle.kp_model.specs.Left.{LeftBehind, LeftNode as ModelLeftNode, again};
ghost use Rattle.kp_model.specs.Epochs.{epoch_cache};
ghost use Rattle.kp_model.specs.Log.{logged};
ghost use Rattle.kp_model.specs.Set.{record_of};
ghost use Rattle.kp_replica.specs.ReadBack.{read_back_cause};
ghost use Rattle.kp_texts.specs.Seen.{seen_state};
ghost use Rattle.kp_folder.specs.Bad.{Differs, IsStop, NoNode, NoNodes, NoneLeft};
ghost use Rattle.kp_folder.specs.Left.{HasLeft, HasNode, HaveLives, HaveNodes, left_in, nodes_again, start_pair, starts_of};

use crate::fault::{FolderFault, KeptFile};
use crate::logs::read_batches;
use crate::record::read_record;
use crate::root::ReadFolder;
use crate::states::read_state;
use kp_batch::Batch;
use kp_epochs::EpochEntry;
use kp_model::LeaderAndIsr;
use kp_replica::KeptNode;
use kp_texts::{EpochStart, StateText};
use kp_types::{Limits, NodeId, Refusal};
use std::alloc::Global;

/// What a folder has that a run has left.
#[derive(Drop)]
pub struct LeftFolder {
    /// The controller's record.
    pub controller: LeaderAndIsr,
    /// The nodes, from 0 on: each down, in the life behind the one that it was left in.
    pub nodes: Vec<KeptNode>,
    /// How many messages were sent, if that is kept.
    pub messages: Option<u64>,
}

// Whether these are the epochs that a log has.
fn are_epochs(starts: &[EpochStart], epochs: &[EpochEntry]) -> bool
    ensures are { result ≡ true → map start_pair starts.now ≡ epochs.now }
    ensures others { result ≡ false → map start_pair starts.now ≢ epochs.now }
{
    let mut left = starts;
    let mut entries = epochs;
    while let Some((start, more)) = left.split_first() {
        let Some((entry, others)) = entries.split_first() else {
            return false;
        };
        if start.epoch != entry.epoch() || start.start != entry.start() {
            return false;
        }
        left = more;
        entries = others;
    }
    entries.is_empty()
}

// The node of this state and these batches, in its next life.
fn node_of(
    alloc: Global,
    node: NodeId,
    limits: &Limits,
    batches: &[Batch],
    state: &StateText,
) -> Result<KeptNode, FolderFault>
    requires { state.now.life + 1 < 2 ^ 64 }
    ensures node { IfOk result (λ kept. kept ≡ record {
      number = node;
      limits = limits.now;
      state = again (left_in (seen_state state.now) batches.now);
    }) }
    ensures stands { OnOk result (read_back_cause [] batches.now state.now.checkpoint ≡ None) }
    ensures epochs { OnOk result (starts_of (seen_state state.now) ≡ epoch_cache (map logged batches.now)) }
    ensures fault { IfErr result (λ fault. IsStop fault ⊎ Differs node (seen_state state.now) batches.now fault) }
{
    let life = state.life + 1;
    let read = KeptNode::read_back(
        alloc,
        node,
        limits,
        batches,
        state.checkpoint,
        life,
        state.kept,
    );
    match read {
        Ok(kept) => {
            if are_epochs(&state.starts, kept.log().tables().epochs().entries()) {
                Ok(kept)
            } else {
                Err(FolderFault::BadFile(KeptFile::State(node)))
            }
        }
        Err(Refusal::Memory) => Err(FolderFault::NoMemory),
        Err(refusal) => Err(FolderFault::BadNode(node, refusal)),
    }
}

// The node, as the folder has it.
fn read_node<F: ReadFolder>(
    alloc: Global,
    folder: &mut F,
    limits: &Limits,
    node: NodeId,
) -> Result<KeptNode, FolderFault>
    ensures node { IfOk result (λ kept. IfSome (F.files folder.old)
        (λ files. (x : ModelLeftNode) × HasNode files limits.now.max_batch node x × (x.life + 1 < 2 ^ 64)
        × (kept ≡ record { number = node; limits = limits.now; state = again x }))) }
    ensures fault { IfErr result (λ fault. IsStop fault ⊎ IfSome (F.files folder.old)
        (λ files. NoNode files limits.now.max_batch node fault)) }
    ensures same { F.files folder.new ≡ F.files folder.old }
{
    let state = read_state(alloc, folder, node)?;
    if state.life == u64::MAX {
        return Err(FolderFault::BadNode(node, Refusal::RecordFull));
    }
    let batches = read_batches(alloc, folder, node, state.end, limits)?;
    node_of(alloc, node, limits, &batches, &state)
}

// The nodes from 0 on, as the folder has them.
fn read_nodes<F: ReadFolder>(
    alloc: Global,
    folder: &mut F,
    limits: &Limits,
    count: NodeId,
) -> Result<Vec<KeptNode>, FolderFault>
    ensures nodes { IfOk result (λ nodes. IfSome (F.files folder.old)
        (λ files. (xs : List ModelLeftNode) × HaveNodes files limits.now.max_batch 0 xs × HaveLives xs
        × (nodes.items ≡ nodes_again limits.now 0 xs))) }
    ensures count { IfOk result (λ nodes. length nodes.items ≡ count) }
    ensures fault { IfErr result (λ fault. IsStop fault ⊎ IfSome (F.files folder.old)
        (λ files. NoNodes files limits.now.max_batch count fault)) }
    ensures same { F.files folder.new ≡ F.files folder.old }
{
    let mut nodes = Vec::new(alloc);
    for node in 0..count {
        let kept = read_node(alloc, folder, limits, node)?;
        let Ok(()) = nodes.push(kept) else {
            return Err(FolderFault::NoMemory);
        };
    }
    Ok(nodes)
}

/// What the folder has of so many nodes, whose logs have these limits. Nothing is written. The fault is the first one, in this order: the
/// record; then of each node its state, its life, its segments by their offsets, the row of its batches with the checkpoint, and its
/// leader epochs. F32, F33. Takes time proportional to the files, and memory to the logs, which share the segments' bytes.
pub fn read_left<F: ReadFolder>(
    alloc: Global,
    folder: &mut F,
    limits: &Limits,
    count: NodeId,
) -> Result<LeftFolder, FolderFault>
    ensures left { IfOk result (λ left. IfSome (F.files folder.old)
        (λ files. (x : LeftBehind) × HasLeft files limits.now.max_batch x left.messages × HaveLives x.nodes
        × (x.controller ≡ record_of left.controller) × (left.nodes.items ≡ nodes_again limits.now 0 x.nodes))) }
    ensures count { IfOk result (λ left. length left.nodes.items ≡ count) }
    ensures fault { IfErr result (λ fault. IsStop fault ⊎ IfSome (F.files folder.old)
        (λ files. NoneLeft files limits.now.max_batch count fault)) }
    ensures same { F.files folder.new ≡ F.files folder.old }
{
    let (controller, messages) = read_record(alloc, folder, count)?;
    let nodes = read_nodes(alloc, folder, limits, count)?;
    Ok(LeftFolder {
        controller,
        nodes,
        messages,
    })
}
