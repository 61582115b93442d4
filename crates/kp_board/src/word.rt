//! Word 0 and the controller's record.

ghost use Rattle.std.specs.Prelude.{◌≡◌};
ghost use Rattle.kp_model.specs.World.{LeaderAndIsr as ModelRecord};
ghost use Rattle.kp_model.specs.Set.{record_of};
ghost use Rattle.kp_board.specs.Plays.{IsRecordOfWord};

use kp_control::unpack;
use kp_model::LeaderAndIsr;

// The record whose word this is.
pub(crate) fn record_of_word(word: u64) -> LeaderAndIsr
    requires { (s : ModelRecord) × IsRecordOfWord s word }
    ensures { (s : ModelRecord) → IsRecordOfWord s word → record_of result ≡ s }
{
    match unpack(word) {
        Some(record) => record,
        None => unreachable!(),
    }
}
