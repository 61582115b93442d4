//! What every crate speaks of: offsets, epochs, node numbers, limits, refusals, and devices that count
//! their failed calls. It stands on the kit's arrayvec. The layers above use the refusals' exact texts, and
//! that a device refusal comes exactly where a count rose.
#![tactic(auto)]

mod counted;
mod faulty;
mod folder;
mod limits;
mod refusal;

pub use counted::{Counted, JOINED_BYTES};
pub use faulty::{Faulty, FaultyFolder};
pub use folder::Folder;
pub use limits::{
    Epoch, GREATEST_EPOCH, GREATEST_INT32, GREATEST_OFFSET, GREATEST_SEGMENT_BYTES,
    GREATEST_VERSION, LEAST_SEGMENT_BYTES, Limits, MAX_BATCH, MAX_INDEX_INTERVAL, MOST_NODES,
    NODE_PLACES, NodeId, Offset, SEQUENCES,
};
pub use refusal::Refusal;
