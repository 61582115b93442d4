//! One broker node: its log, its high watermark and its part in the replication. It stands on the log,
//! on what other nodes reported and on the model's record, messages and definitions. Its contract says of each call
//! which event of the definitions it is: the answer, the state before and the state after.
#![tactic(auto)]

ghost use Rattle.kp_replica.specs.Laws.{ActsAreAsked, ActsAreTold, ActsAreToldOnce};
ghost use Rattle.kp_replica.specs.Offers.{BytesAreAnOffer, OffersAreOne};

mod act;
mod adopting;
mod altering;
mod asking;
mod broker;
mod cutting;
mod kept;
mod producing;
mod raising;
mod reading;
mod reading_back;
mod replica;
mod restarting;
mod serving;
mod stopping;
mod taking;
mod up_or_down;

pub use act::{Act, Answer, Effect, PlainAct};
pub use adopting::Role;
pub use altering::{IsrChange, Known, Learned};
pub use broker::Broker;
pub use cutting::CutBack;
pub use kept::KeptNode;
pub use producing::Receipt;
pub use reading::{Shown, Status};
pub use replica::Replica;
pub use taking::Taken;

/// All bytes hand in one thing, and only one: a batch, or the refusal of what they are. It costs nothing.
pub fn bytes_are_an_offer()
    ensures some { BytesAreAnOffer }
    ensures one { OffersAreOne }
{
    kp_batch::batches_stand_apart();
    kp_batch::bytes_are_judged_once();
}

/// All that a node may be asked to do, in which numbers below 256 are handed in, is an act of the definitions, and one only,
/// by which no message comes. It costs nothing.
pub fn acts_are_told()
    ensures some { ActsAreTold }
    ensures one { ActsAreToldOnce }
    ensures asked { ActsAreAsked }
{
    bytes_are_an_offer();
}
