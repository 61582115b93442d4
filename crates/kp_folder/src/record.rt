//! The reader of the controller's record.

ghost use Rattle.std.specs.Prelude.{◌≡◌, ◌⊎◌, IfErr, IfOk, IfSome};
ghost use Rattle.kp_model.specs.Set.{record_of as recorded};
ghost use Rattle.kp_folder.specs.Bad.{IsStop, NoRecord};
ghost use Rattle.kp_folder.specs.Left.{HasRecord};

use crate::fault::{FolderFault, KeptFile};
use crate::root::{ReadFolder, read_file};
use kp_model::LeaderAndIsr;
use kp_texts::record_of;
use kp_types::NodeId;
use std::alloc::Global;

/// The controller's record, as the folder of so many nodes has it, and how many messages were sent, if that is kept.
pub(crate) fn read_record<F: ReadFolder>(
    alloc: Global,
    folder: &mut F,
    count: NodeId,
) -> Result<(LeaderAndIsr, Option<u64>), FolderFault>
    ensures found { IfOk result (λ found. IfSome (F.files folder.old)
        (λ files. HasRecord files count (recorded found.0) found.1)) }
    ensures fault { IfErr result (λ fault. IsStop fault
        ⊎ IfSome (F.files folder.old) (λ files. NoRecord files count fault)) }
    ensures same { F.files folder.new ≡ F.files folder.old }
{
    kp_texts::texts_say_one_value();
    let bad = FolderFault::BadFile(KeptFile::Record);
    let bytes = match read_file(alloc, folder, KeptFile::Record, "record") {
        Ok(Some(bytes)) => bytes,
        Ok(None) => return Err(bad),
        Err(fault) => return Err(fault),
    };
    let Some(kept) = record_of(&bytes) else {
        return Err(bad);
    };
    if kept.nodes != count {
        return Err(bad);
    }
    Ok((kept.controller, kept.messages))
}
