//! What a script's run leaves.

ghost use Rattle.std.specs.Prelude.{◌≡◌, ◌+◌, ◌<◌, ◌≤◌, ◌^◌, length, slice_index_or, IfErr, OnErr, OnOk};
ghost use Rattle.kp_types.specs.Devices.{CountsFaults, IsDeviceFault, device_of, faults_of};
ghost use Rattle.kp_replica.specs.NumberedNode.{NumberedNode};
ghost use Rattle.kp_world.specs.Shown.{log_of};
ghost use Rattle.kp_script.specs.Kept.{KeepsStage, KeepsStageFront, messages_kept};

use kp_log::PartitionLog;
use kp_types::{Counted, Folder, NodeId, Refusal};
use kp_world::World;
use std::alloc::Global;
use std::marker::Model;

/// Numbers of messages are below this.
const NUMBERS: u64 = 1 << 31;

/// What a script's run leaves: how many of its events were refused, and the nodes of its last world, of which the logs are
/// lent.
pub struct Ended {
    refused: u64,
    count: NodeId,
    world: World,
}

// By hand, so that a function that drops what a run left calls this, and isn't proved with what drops each of its parts.
impl Drop for Ended {
    fn drop(self) {
        let Ended {
            refused: _,
            count: _,
            world: _,
        } = self;
    }
}

impl Model for Ended {
    ghost use Rattle.std.specs.Prelude.{◌≡◌, ◌<◌, ◌≤◌, length};
    ghost use Rattle.kp_script.specs.Ended.{RunEnd};

    ghost Value = { RunEnd };

    ghost view = { λ ended. record {
      refused = ended.refused;
      stage = ended.world;
    } };

    ghost invariant = { λ ended. (length ended.world.nodes ≡ ended.count)
        × (0 < ended.count)
        × (ended.count ≤ 7) };
}

impl Ended {
    /// The end of a run of so many nodes that left this world.
    pub(crate) fn new(refused: u64, count: NodeId, world: World) -> Ended
        requires count { length world.nodes ≡ count }
        requires some { 0 < count }
        requires most { count ≤ 7 }
        ensures { result ≡ record { refused = refused; stage = world } }
    {
        Ended {
            refused,
            count,
            world,
        }
    }

    /// How many of the script's events were refused. O(1).
    pub fn refused(&self) -> u64
        ensures { result ≡ self.now.refused }
    {
        self.refused
    }

    /// How many nodes the script has, 1 to 7; they are numbered from 0. O(1).
    pub fn count(&self) -> NodeId
        ensures value { result ≡ length self.now.stage.nodes }
        ensures some { 0 < result }
        ensures most { result ≤ 7 }
    {
        self.count
    }

    /// The log of a node, up or down, at the end of the run; it is settled up to the node's high watermark. O(1).
    pub fn log(&self, node: NodeId) -> &PartitionLog
        requires { node < length self.now.stage.nodes }
        ensures { (other : NumberedNode) → result.now
            ≡ log_of (slice_index_or self.now.stage.nodes node other) }
    {
        self.world.log(node)
    }

    /// How many messages were sent, by this process and by those before it, where it is a number that a script can name. O(1).
    fn messages(&self) -> Option<u64>
        ensures { result ≡ messages_kept self.now.stage }
    {
        match self.world.next_number() {
            Some(number) if number < NUMBERS => Some(number),
            _ => None,
        }
    }

    /// Puts what the run leaves into the folder, as [`kp_folder::write_left`] does: the controller's record, and of each node, up or down,
    /// a folder `node-0`, `node-1` and so on, with its log, a file for each segment, and its state. F32 where the folder failed,
    /// and its count rises by one; F33 where memory was refused: a beginning of the files is there then. O(n) in the bytes of all
    /// logs.
    pub fn write_left<F: Folder>(
        &self,
        alloc: Global,
        folder: &mut Counted<F>,
    ) -> Result<(), Refusal>
        requires { faults_of folder.old + 1 < 2 ^ 64 }
        ensures ok { OnOk result (KeepsStage self.now.stage (F.entries (device_of folder.old))
            (F.entries (device_of folder.new))) }
        ensures err { OnErr result (KeepsStageFront self.now.stage (F.entries (device_of folder.old))
            (F.entries (device_of folder.new))) }
        ensures only { IfErr result IsDeviceFault }
        ensures counted { CountsFaults result (faults_of folder.old) (faults_of folder.new) }
    {
        kp_folder::write_left(
            alloc,
            self.world.controller(),
            self.world.nodes(),
            self.messages(),
            folder,
        )
    }
}
