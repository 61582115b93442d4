//! Nodes that are read back, before a cluster is opened with them.

ghost use Rattle.std.specs.Prelude.{◌≡◌, ◌⊎◌, ◌<◌, ◌≤◌, [], ◌∷◌, ◌++◌, length, IfErr, IfOk, OnErr, OnOk};
ghost use Rattle.kp_types.specs.declared.refusal.Refusal.TheVariants.{Memory};
ghost use Rattle.kp_model.specs.Set.{record_of};
ghost use Rattle.kp_log.specs.BatchesIn.{AreBatchesIn};
ghost use Rattle.kp_node.specs.Again.{WereLeft, opening_of};
ghost use Rattle.kp_node.specs.Seats.{AreNumbered};
ghost use Rattle.kp_handles.specs.Left.{KeepsNode, KeepsNone, kept_epoch_in, promised_of};

use crate::finding::found_in;
use kp_board::OpenedAgain;
use kp_log::BatchesIn;
use kp_model::LeaderAndIsr;
use kp_node::open_again;
use kp_replica::KeptNode;
use kp_types::{Epoch, Limits, NodeId, Refusal};
use std::alloc::Global;
use std::marker::{Brand, Model};
use std::mem::replace;

/// What is kept of a node beside its log.
#[repr(C)]
#[derive(Clone, Copy)]
pub struct KeptIn {
    /// The high watermark from which a restart begins.
    pub checkpoint: u64,
    /// How often it was restarted.
    pub life: u64,
    /// The leader epoch that it last took up; of no account where it has taken up none.
    pub kept_epoch: u32,
    /// Whether it has ever taken up a leader epoch.
    pub adopted: bool,
}

/// What a process promised before it ended: the batches of a node's log below an offset.
#[repr(C)]
#[derive(Clone, Copy)]
pub struct PromiseIn {
    pub offset: u64,
    pub node: u8,
}

/// Nodes that were read back, from 0 on, and the sizes of their logs.
#[derive(Drop)]
pub struct LeftNodes {
    pub(crate) limits: Limits,
    pub(crate) nodes: Vec<KeptNode>,
}

impl Model for LeftNodes {
    ghost use Rattle.std.specs.Prelude.{◌≤◌, length};
    ghost use Rattle.kp_node.specs.Seats.{AreNumbered};
    ghost use Rattle.kp_handles.specs.Left.{LeftView};

    ghost Value = { LeftView };

    ghost view = { λ l. record { limits = l.limits; nodes = l.nodes.items } };

    ghost invariant = { λ l. AreNumbered 0 l.nodes.items × (length l.nodes.items ≤ 7) };
}

impl KeptIn {
    fn kept_epoch(&self) -> Option<Epoch>
        ensures { result ≡ kept_epoch_in self.now }
    {
        if self.adopted {
            Some(self.kept_epoch)
        } else {
            None
        }
    }
}

impl LeftNodes {
    /// No nodes.
    pub fn new(alloc: Global, limits: &Limits) -> LeftNodes
        ensures { result ≡ record { limits = limits.now; nodes = [] } }
    {
        LeftNodes {
            limits: *limits,
            nodes: Vec::new(alloc),
        }
    }

    // The batches that the bytes begin with.
    fn batches_of(&self, alloc: Global, bytes: &[u8]) -> Result<BatchesIn, Refusal>
        ensures found { IfOk result (λ found. AreBatchesIn self.now.limits.max_batch bytes.now found.batches.items found.size found.fault) }
        ensures only { IfErr result (λ refusal. refusal ≡ Memory) }
    {
        found_in(alloc, bytes, self.limits.max_batch)
    }

    // The next node, with the log that the bytes are.
    fn next_node(&self, alloc: Global, bytes: &[u8], kept: &KeptIn) -> Result<KeptNode, Refusal>
        requires { length self.now.nodes < 7 }
        ensures node { IfOk result (λ x. KeepsNode bytes.now kept.now self.now (record self.now { nodes = self.now.nodes ++ x ∷ [] })) }
        ensures number { IfOk result (λ x. x.number ≡ length self.now.nodes) }
        ensures refused { IfErr result (λ refusal. (refusal ≡ Memory) ⊎ KeepsNone bytes.now kept.now self.now refusal) }
    {
        if kept.life == u64::MAX {
            return Err(Refusal::RecordFull);
        }
        let found = self.batches_of(alloc, bytes)?;
        if let Some(refusal) = found.fault {
            return Err(refusal);
        }
        KeptNode::read_back(
            alloc,
            self.nodes.len() as NodeId,
            &self.limits,
            &found.batches,
            kept.checkpoint,
            kept.life + 1,
            kept.kept_epoch(),
        )
    }

    /// Reads back the log that the bytes are, as the next node's. F24, F1 to F10, F26, F27, F25, F19; F33, and nothing has changed then. O(bytes).
    pub(crate) fn keep(&mut self, alloc: Global, bytes: &[u8], kept: &KeptIn) -> Result<(), Refusal>
        requires { length self.old.nodes < 7 }
        ensures kept { OnOk result (KeepsNode bytes.now kept.now self.old self.new) }
        ensures refused { IfErr result (λ refusal. (refusal ≡ Memory) ⊎ KeepsNone bytes.now kept.now self.old refusal) }
        ensures same { OnErr result (self.new ≡ self.old) }
    {
        self.nodes.reserve(1)?;
        let node = self.next_node(alloc, bytes, kept)?;
        self.nodes.push_reserved(node);
        Ok(())
    }

    /// These, of which it holds none then. O(1).
    pub(crate) fn take(&mut self, alloc: Global) -> LeftNodes
        ensures { result ≡ self.old }
    {
        let limits = self.limits;
        replace(self, LeftNodes::new(alloc, &limits))
    }

    /// The nodes.
    pub(crate) fn into_nodes(self) -> Vec<KeptNode>
        ensures nodes { result.items ≡ self.nodes }
        ensures numbered { AreNumbered 0 self.nodes }
        ensures few { length self.nodes ≤ 7 }
    {
        let LeftNodes { limits: _, nodes } = self;
        nodes
    }

    /// The words of a board that opens with these nodes, which some process has left with this record, and had promised. F33 is the
    /// only refusal.
    pub fn opened(
        &self,
        alloc: Global,
        known: &LeaderAndIsr,
        promise: &PromiseIn,
    ) -> Result<OpenedAgain, Refusal>
        requires { WereLeft (record_of known.now) self.now.nodes (promised_of promise.now self.now.nodes) }
        ensures opened { IfOk result (λ o. o.opening ≡ opening_of (record_of known.now) self.now.nodes (promised_of promise.now self.now.nodes)) }
        ensures only { IfErr result (λ refusal. refusal ≡ Memory) }
    {
        open_again::<Brand, PromiseIn>(alloc, known, &self.nodes, promise)
    }
}
