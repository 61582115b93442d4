//! A race: producers, elections and nodes in threads of their own, and whether all nodes agree at its end.
//! It stands on kp_cluster's workers, on kp_transport's carriers, and on kp_node's calls under a lock.
//! Its contract gives the layer above: the nodes agree, and no more is acknowledged than receipts say, nor are there more of these than batches.
#![tactic(auto)]

mod agreement;
mod handed_in;
mod held;
mod judge;
mod outcome;
mod over_channels;
mod race;
mod racer;
mod task;

pub use outcome::{Outcome, Plan};
pub use over_channels::race_over_channels;
pub use race::{nodes_of, run_race, stop_all};
