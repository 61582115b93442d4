//! How a node that is down starts again.

use crate::kept::KeptNode;
use crate::replica::{Mode, Replica};
use kp_log::UndoStack;
use kp_types::Refusal;
use std::alloc::Global;

impl Replica {
    ghost use Rattle.std.specs.Prelude.{◌≡◌, IfOk, IfErr};
    ghost use Rattle.kp_model.specs.Log.{end_of};
    ghost use Rattle.kp_model.specs.Event.{Refused, Restart, Restarted};
    ghost use Rattle.kp_replica.specs.NumberedNode.{Does};

    /// Starts the node that is down again, in its next life: idle, with the log and the leader epoch that it kept and the high
    /// watermark at its checkpoint, up to which the log is settled, so that what lies above it may be taken back. Its tables are
    /// built anew. F24 where its life is at its greatest, 2^64 - 1, and F33: either gives the node back as it was. The cost is that
    /// of `Kept::reopen` (own rule).
    pub fn restart(alloc: Global, node: KeptNode) -> Result<Replica, (KeptNode, Refusal)>
        ensures restarted { IfOk result (λ replica. Does node replica Restart (Restarted
            replica.state.life (end_of replica.state.log) replica.state.watermark)) }
        ensures refused { IfErr result (λ back. Does node back.0 Restart (Refused back.1)) }
        ensures back { IfErr result (λ back. back.0 ≡ node) }
    {
        if node.life == u64::MAX {
            return Err((node, Refusal::RecordFull));
        }
        let KeptNode {
            number,
            kept,
            watermark,
            life,
            kept_epoch,
        } = node;
        let checkpoint = kept.start_offset();
        match kept.reopen(alloc) {
            Ok((log, entries)) => Ok(Replica {
                number,
                log,
                entries: UndoStack::of(entries),
                watermark: checkpoint,
                checkpoint,
                life: life + 1,
                kept_epoch,
                mode: Mode::Idle,
                served: None,
            }),
            Err((kept, refusal)) => {
                let node = KeptNode {
                    number,
                    kept,
                    watermark,
                    life,
                    kept_epoch,
                };
                Err((node, refusal))
            }
        }
    }
}
