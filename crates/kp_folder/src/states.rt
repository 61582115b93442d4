//! The reader of a node's state.

ghost use Rattle.std.specs.Prelude.{◌≡◌, ◌⊎◌, Some, IfErr, IfOk, IfSome, string_bytes};
ghost use Rattle.kp_types.specs.declared.refusal.Refusal.TheVariants.{Memory};
ghost use Rattle.kp_texts.specs.Seen.{seen_state};
ghost use Rattle.kp_folder.specs.Bad.{IsStop, NoState};
ghost use Rattle.kp_folder.specs.Files.{IsFile, state_name};
ghost use Rattle.kp_folder.specs.Left.{HasState};

use crate::fault::{FolderFault, KeptFile};
use crate::root::{ReadFolder, read_file};
use kp_texts::{StateText, state_of};
use kp_types::{NodeId, Refusal};
use std::alloc::Global;

/// The name of the file of a node's state.
pub(crate) fn name_of_state(alloc: Global, node: NodeId) -> Result<String, Refusal>
    ensures name { IfOk result (λ name. string_bytes name ≡ state_name node) }
    ensures only { IfErr result (λ refusal. refusal ≡ Memory) }
{
    let name = format!(in alloc; "node-{node}/state")?;
    Ok(name)
}

// The file of a node's state.
fn state_file<F: ReadFolder>(
    alloc: Global,
    folder: &mut F,
    node: NodeId,
) -> Result<Option<Vec<u8>>, FolderFault>
    ensures found { IfOk result (IsFile (F.files folder.old) (state_name node)) }
    ensures fault { IfErr result IsStop }
    ensures same { F.files folder.new ≡ F.files folder.old }
{
    let Ok(name) = name_of_state(alloc, node) else {
        return Err(FolderFault::NoMemory);
    };
    read_file(alloc, folder, KeptFile::State(node), &name)
}

/// What is kept of a node beside its log.
pub(crate) fn read_state<F: ReadFolder>(
    alloc: Global,
    folder: &mut F,
    node: NodeId,
) -> Result<StateText, FolderFault>
    ensures found { IfOk result (λ state. IfSome (F.files folder.old)
        (λ files. HasState files node (seen_state state))) }
    ensures fault { IfErr result (λ fault. IsStop fault
        ⊎ IfSome (F.files folder.old) (λ files. NoState files node fault)) }
    ensures same { F.files folder.new ≡ F.files folder.old }
{
    let bad = FolderFault::BadFile(KeptFile::State(node));
    let Some(bytes) = state_file(alloc, folder, node)? else {
        return Err(bad);
    };
    match state_of(alloc, &bytes) {
        Ok(Some(state)) => Ok(state),
        Ok(None) => Err(bad),
        Err(_) => Err(FolderFault::NoMemory),
    }
}
