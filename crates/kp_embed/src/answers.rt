//! The number of what a call answered, and what is written out of it.
ghost use Rattle.std.specs.Prelude.{◌≡◌, IfOk, OnErr};
ghost use Rattle.kp_handles.specs.Numbers.{answer_number, done_number};
ghost use Rattle.kp_handles.specs.Outs.{WritesOut};

use kp_handles::{
    Called, EpochOut, FoundOut, KnownOut, LeadershipOut, Misuse, ProducerOut, RestartOut, RoleOut,
    StateOut, TimeOut, ack_out, misuse_number, refusal_number,
};
use kp_model::{EpochEnd, LeaderAndIsr};
use kp_node::{Ack, NodeState, ProducerInLog};
use kp_replica::{Answer, Known, Role};
use kp_segment::OffsetAndTimestamp;
use kp_types::Offset;

/// What stands behind a caller's parameter, which an answer of this type is written to.
pub(crate) trait Out<T> {
    ghost out: { T → Self };

    fn write(&mut self, found: T)
        ensures { self.new ≡ Self.out found };
}

impl Out<Role> for RoleOut {
    ghost use Rattle.kp_handles.specs.Outs.{role_out};

    ghost out = { role_out };

    fn write(&mut self, found: Role) {
        *self = RoleOut::of(found);
    }
}

impl Out<Answer> for RestartOut {
    ghost use Rattle.kp_handles.specs.Outs.{restart_out};

    ghost out = { restart_out };

    fn write(&mut self, found: Answer) {
        *self = RestartOut::of(&found);
    }
}

impl Out<LeaderAndIsr> for LeadershipOut {
    ghost use Rattle.kp_handles.specs.Outs.{leadership_out};

    ghost out = { leadership_out };

    fn write(&mut self, found: LeaderAndIsr) {
        *self = LeadershipOut::of(&found);
    }
}

impl Out<NodeState> for StateOut {
    ghost use Rattle.kp_handles.specs.Telling.{state_out};

    ghost out = { state_out };

    fn write(&mut self, found: NodeState) {
        *self = StateOut::of(found);
    }
}

impl Out<Option<EpochEnd>> for EpochOut {
    ghost use Rattle.kp_handles.specs.Telling.{epoch_out};

    ghost out = { epoch_out };

    fn write(&mut self, found: Option<EpochEnd>) {
        *self = EpochOut::of(found);
    }
}

impl Out<Option<OffsetAndTimestamp>> for TimeOut {
    ghost use Rattle.kp_handles.specs.Telling.{time_out};

    ghost out = { time_out };

    fn write(&mut self, found: Option<OffsetAndTimestamp>) {
        *self = TimeOut::of(found);
    }
}

impl Out<Known> for KnownOut {
    ghost use Rattle.kp_handles.specs.Describing.{known_out};

    ghost out = { known_out };

    fn write(&mut self, found: Known) {
        *self = KnownOut::of(found);
    }
}

impl Out<Option<ProducerInLog>> for ProducerOut {
    ghost use Rattle.kp_handles.specs.Describing.{producer_out};

    ghost out = { producer_out };

    fn write(&mut self, found: Option<ProducerInLog>) {
        *self = ProducerOut::of(found);
    }
}

impl Out<FoundOut> for FoundOut {
    ghost out = { λ found. found };

    fn write(&mut self, found: FoundOut) {
        *self = found;
    }
}

impl Out<Offset> for u64 {
    ghost out = { λ offset. offset };

    fn write(&mut self, found: Offset) {
        *self = found;
    }
}

impl Out<Ack> for u32 {
    ghost use Rattle.kp_handles.specs.Outs.{ack_out};

    ghost out = { ack_out };

    fn write(&mut self, found: Ack) {
        *self = ack_out(found);
    }
}

/// The number of what was answered, which goes to the caller.
pub(crate) fn told<T, U: Out<T>>(answer: Called<T>, to: &mut U) -> u32
    ensures number { result ≡ answer_number answer }
    ensures written { WritesOut U.out answer to.old to.new }
{
    match answer {
        Ok(Ok(found)) => {
            to.write(found);
            0
        }
        Ok(Err(refusal)) => refusal_number(&refusal),
        Err(misuse) => misuse_number(&misuse),
    }
}

/// The number of an answer that tells no more.
pub(crate) fn number(answer: Called<()>) -> u32
    ensures { result ≡ answer_number answer }
{
    match answer {
        Ok(Ok(())) => 0,
        Ok(Err(refusal)) => refusal_number(&refusal),
        Err(misuse) => misuse_number(&misuse),
    }
}

/// The number of a call that is never refused.
pub(crate) fn done(answer: Result<(), Misuse>) -> u32
    ensures { result ≡ done_number answer }
{
    match answer {
        Ok(()) => 0,
        Err(misuse) => misuse_number(&misuse),
    }
}

/// The number of what was looked up, which goes to the caller.
pub(crate) fn seen<T: Copy>(answer: Result<T, Misuse>, to: &mut T) -> u32
    ensures number { result ≡ done_number answer }
    ensures written { IfOk answer (λ found. to.new ≡ found) }
    ensures kept { OnErr answer (to.new ≡ to.old) }
{
    match answer {
        Ok(found) => {
            *to = found;
            0
        }
        Err(misuse) => misuse_number(&misuse),
    }
}
