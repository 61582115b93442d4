//! The board: one word for the controller's record and two for each node, which threads share without a lock.
//! It stands on kp_control's packed record, on kp_model's runs with their laws, and on atomic_table's words and seats.
//! The layer above reads off a pass what holds of a run of the definitions; each step on a word is a step of that run.
#![tactic(auto)]

ghost use Rattle.kp_board.specs.Laws.{CallersAgree};

mod board;
mod closing;
mod decisions;
mod message;
mod node_steps;
mod opening;
mod passes;
mod plays;
mod rule;
mod telling;
mod views;
mod word;

pub use board::{Board, Opened, OpenedAgain};
pub use message::Message;
pub use opening::{BoardKey, Left, OpeningView};
pub use passes::{BoardName, Callers, FreshPass, LeftPass, MessagePass, NodePass, Pass};
pub use plays::{Election, NodeStep, ReceiptFiling, SendingStep, StepUnderRecord};
pub use rule::{BoardRule, BoardSeat, BoardTable};
pub use views::SeatView;

/// Of the committed lists that any two callers of one board have seen, whoever they are, one begins the other. It costs nothing.
pub fn callers_agree()
    ensures { CallersAgree }
{}
