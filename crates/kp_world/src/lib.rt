//! All nodes of one partition in one process, run by one thread over a list of events. It stands on the
//! replicas. Its contract says that the answers are those of a run of the definitions over these events,
//! and that every run is safe: what once lay below a high watermark stays, at its offset, for ever.
#![tactic(auto)]

ghost use Rattle.kp_world.specs.Laws.{EventsAreTold, EventsAreToldOnce, PlaysGoOn};
ghost use Rattle.kp_world.specs.Left.{LeftStagesGoOn};

mod event;
mod world;

pub use event::{Event, EventAnswer, Stopped, Trace};
pub use world::{World, run};

/// Every list of events, in which numbers below 256 are handed in, is a list of events of the definitions, and of
/// one only: the bytes that a client hands in are one offer. It is what [`run`] speaks of. It costs nothing.
pub fn events_are_told()
    ensures some { EventsAreTold }
    ensures one { EventsAreToldOnce }
{
    kp_replica::acts_are_told();
}

/// What a process has left may be gone on from: whatever run led to it goes on, by restarts and stops of its nodes, to the world with
/// which [`World::again`] begins. It costs nothing.
pub fn left_stages_go_on()
    ensures { LeftStagesGoOn }
{}

/// Every run that is played goes on: whatever events of these come next, there are answers to them, so that a run over the
/// first events of a list is the beginning of one over all of them. It costs nothing.
pub fn plays_go_on()
    ensures { PlaysGoOn }
{
    kp_model::runs_are_safe();
    kp_model::no_delivery_is_refused_oddly();
    kp_model::runs_keep_count();
    kp_model::messages_go_to_nodes();
    kp_model::runs_keep_logs();
    kp_model::runs_keep_kin();
    kp_model::serve_is_the_step();
    kp_model::take_is_the_step();
    kp_model::cut_is_the_step();
}
