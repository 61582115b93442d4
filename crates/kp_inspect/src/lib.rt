//! Bytes looked into: each batch of a log, the first fault, and the tables that a broker builds of them.
//! It stands on kp_batch, kp_marker and kp_log, and on the counted devices of kp_types.
//! Its contract says that what is written is the dump of the bytes that were read, and names the fault.
#![tactic(auto)]

mod inspecting;
mod scan;
mod text;

ghost use Rattle.kp_inspect.specs.Laws.{DumpsAreOne, KeptLogsAreRead};

pub use inspecting::inspect;

/// The bytes have one dump: what `inspect` writes and answers is determined by them and the limits. It costs
/// nothing.
pub fn dumps_are_one()
    ensures { DumpsAreOne }
{
    kp_batch::batches_stand_apart();
    kp_batch::bytes_are_judged_once();
    kp_batch::batches_are_framed();
    kp_model::segments_are_one();
    kp_producers::tables_are_one();
}

/// A log that was written as files, one for each segment, is read again: whoever inspects the files, joined in their
/// order, gets the dump of that log and no fault. It costs nothing.
pub fn kept_logs_are_read()
    ensures { KeptLogsAreRead }
{
    kp_batch::batches_stand_apart();
    kp_batch::bytes_are_judged_once();
    kp_batch::batches_are_framed();
    kp_log::files_are_the_log();
}
