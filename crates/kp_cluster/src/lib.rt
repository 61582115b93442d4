//! Nodes by threads: a worker for each node and one for the controller, which handle what is carried to their places until told to stop.
//! It stands on kp_node's calls under a lock, on kp_board's decisions without one, and on kp_transport's carriers.
//! Its contract says what a node does with a parcel, by the node's own clauses, and that each started worker can be stopped.
#![tactic(auto)]

mod cluster;
mod controller;
mod gate;
mod job;
mod turn;
mod worker;

pub use cluster::{Cluster, start, start_on};
pub use controller::controller_step;
pub use gate::{Gate, Open};
pub use turn::{bring_up, take_turn};
pub use worker::{Done, handle, worker_step};
