//! A broker node that threads share as std's `Mutex<Node>`, whose `lock` alone waits: each call under it is an event of the run or none.
//! It stands on kp_replica's node, up or down, and on kp_board, on whose words each call makes its one step.
//! Its contract says of each call which event it is, and what the caller's pass then shows: receipts kept, one committed list seen.
#![tactic(auto)]

ghost use Rattle.kp_node.specs.Laws.{SeenBatchesStay};

mod ack;
mod again;
mod altering;
mod asking;
mod closing;
mod describing;
mod fetched;
mod fetching;
mod keeping;
mod node;
mod producing;
mod raising;
mod reading;
mod seating;
mod stepping;
mod stopping;
mod telling;

pub use ack::Ack;
pub use again::{Promise, open_again};
pub use closing::{ClosedBoard, LeftNode, are_all, close};
pub use describing::ProducerInLog;
pub use fetched::{Fetched, Isolation};
pub use node::Node;
pub use seating::{Seats, seat, seat_again};
pub use telling::NodeState;

/// A batch that a caller's pass has seen at its offset stands there in each list that the pass sees later. It costs nothing.
pub fn seen_batches_stay()
    ensures { SeenBatchesStay }
{}
