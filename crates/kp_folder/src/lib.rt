//! What a run leaves in a folder, written and read: the controller's record, and of each node its state and its log.
//! It stands on the texts of kp_texts, on kp_log's files and reader of batches, and on kp_replica's nodes, also read back.
//! Its contract gives the layer above which files are written, and what a folder has left, or what of it is at fault.
#![tactic(auto)]

mod fault;
mod logs;
mod nodes;
mod record;
mod root;
mod segments;
mod states;
mod writing;

pub use fault::{FolderFault, KeptFile};
pub use nodes::{LeftFolder, read_left};
pub use root::ReadFolder;
pub use writing::write_left;
