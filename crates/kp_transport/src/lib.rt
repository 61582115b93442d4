//! How messages and turns get to the nodes and the controller of a cluster: over queues in memory, over channels, or roughly, for tests.
//! It stands on kp_board's messages, each of which goes with its pass, and on crossbeam_channel.
//! Its contract gives the layer above: only want of memory refuses a parcel, and a message shows what its sender's pass showed.
#![tactic(auto)]

mod channels;
mod memory;
mod parcel;
mod rough;
mod watched;

pub use channels::Channels;
pub use memory::Memory;
pub use parcel::{Carry, Parcel};
pub use rough::{Choice, Rough};
pub use watched::{Waiting, Watched};
