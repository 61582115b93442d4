//! A node that is down.

ghost use Rattle.std.specs.Prelude.{◌≡◌};

use crate::reading::Status;
use kp_log::{Kept, PartitionLog};
use kp_types::{Epoch, NodeId, Offset, Refusal};
use std::marker::Model;

/// A node that is down, with its number: what it keeps until it is restarted. Dropped, it is gone.
#[derive(Drop)]
pub struct KeptNode {
    pub(crate) number: NodeId,
    pub(crate) kept: Kept,
    pub(crate) watermark: Offset,
    pub(crate) life: u64,
    pub(crate) kept_epoch: Option<Epoch>,
}

impl Model for KeptNode {
    ghost use Rattle.kp_replica.specs.NumberedNode.{NumberedNode};
    ghost use Rattle.kp_replica.specs.Kept.{kept_node, IsKeptWhole};

    ghost Value = { NumberedNode };

    ghost view = { kept_node };

    ghost invariant = { IsKeptWhole };
}

impl KeptNode {
    ghost use Rattle.std.specs.Prelude.{◌≡◌, ◌≤◌, true};
    ghost use Rattle.kp_model.specs.Log.{IsBoundary};
    ghost use Rattle.kp_model.specs.Effect.{is_down};
    ghost use Rattle.kp_model.specs.World.{Down as ModelDown};
    ghost use Rattle.kp_replica.specs.Status.{status_of};
    ghost use Rattle.kp_types.specs.declared.refusal.Refusal.TheVariants.{Down as IsDown};

    /// A node that is down, from a log that was closed elsewhere, as where it was read back from files: the log, settled up to
    /// the high watermark at which the node went down and closed from its checkpoint, how often the node was restarted before,
    /// and the leader epoch that it last took up, none where it has taken up none. An answer of an earlier life is refused only
    /// where the life is that of the node's last one, and a record that the node has led under only where the epoch is. O(1).
    pub fn of(
        number: NodeId,
        kept: Kept,
        watermark: Offset,
        life: u64,
        kept_epoch: Option<Epoch>,
    ) -> KeptNode
        requires boundary { IsBoundary kept.of.log watermark }
        requires settled { kept.of.settled ≡ watermark }
        requires passed { kept.from ≤ watermark }
        ensures { result ≡ record {
          number = number;
          limits = kept.of.limits;
          state = record {
            log = kept.of.log;
            watermark = watermark;
            checkpoint = kept.from;
            life = life;
            kept = kept_epoch;
            mode = ModelDown;
          };
        } }
    {
        KeptNode {
            number,
            kept,
            watermark,
            life,
            kept_epoch,
        }
    }

    /// What the node answers to every call but its restart: F28. O(1).
    pub fn refusal(&self) -> Refusal
        ensures value { result ≡ IsDown }
        ensures down { is_down self.now.state.mode ≡ true }
    {
        let _ = &self.life; // proof: by a field it is known what the node shows
        Refusal::Down
    }

    /// What the node is: it is down. O(1).
    pub fn status(&self) -> Status
        ensures { result ≡ status_of self.now.state.mode }
    {
        let _ = &self.life; // proof: by a field it is known what the node shows
        Status::Down
    }

    /// The node's log, settled up to the high watermark at which the node went down, which is a boundary of it. O(1).
    pub fn log(&self) -> &PartitionLog
        ensures value { result.now ≡ record {
          limits = self.now.limits;
          log = self.now.state.log;
          settled = self.now.state.watermark;
        } }
        ensures boundary { IsBoundary self.now.state.log self.now.state.watermark }
        ensures down { is_down self.now.state.mode ≡ true }
    {
        self.kept.log()
    }

    /// The high watermark at which the node went down, which has passed its checkpoint. O(1).
    pub fn watermark(&self) -> Offset
        ensures value { result ≡ self.now.state.watermark }
        ensures passed { self.now.state.checkpoint ≤ result }
    {
        self.watermark
    }

    /// The high watermark from which the node would start again: a boundary of the log, not above the watermark. O(1).
    pub fn checkpoint(&self) -> Offset
        ensures value { result ≡ self.now.state.checkpoint }
        ensures boundary { IsBoundary self.now.state.log self.now.state.checkpoint }
        ensures passed { result ≤ self.now.state.watermark }
    {
        self.kept.start_offset()
    }

    /// How often the node has been restarted. O(1).
    pub fn life(&self) -> u64
        ensures { result ≡ self.now.state.life }
    {
        self.life
    }

    /// The leader epoch that the node last took up, in whatever life: none where it has taken up none. O(1).
    pub fn kept_epoch(&self) -> Option<Epoch>
        ensures { result ≡ self.now.state.kept }
    {
        self.kept_epoch
    }
}
