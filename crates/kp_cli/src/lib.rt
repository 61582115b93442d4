//! The command line of `kpart`, read into a value: a `Call` says what the program is to do.
//! It stands on the crate `clap`, whose contract says what it makes of the words.
//! Its contract gives the layer above the call that the words ask for, and else one of clap's refusals.
#![tactic(auto)]

mod call;
mod devices;
mod fault;
mod host;
mod left;
mod line;
mod piping;
mod program;
mod racing;
mod running;
mod telling;

pub use call::Call;
pub use devices::{Explained, KeptFolder, LeftSource, Source};
pub use fault::Fault;
pub use host::{HostFile, HostFolder, HostLeft};
pub use line::{VERSION, call_of};
pub use piping::{pipe, pipe_and_keep};
pub use program::{Left, explain, main_with};
pub use running::{perform, run_and_keep};
pub use telling::refuse;
