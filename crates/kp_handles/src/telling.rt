//! What a node tells of itself and of its log.

ghost use Rattle.std.specs.Prelude.{◌≡◌};
ghost use Rattle.kp_handles.specs.Telling.{epoch_out, status_epoch, status_leader, status_number, status_start, state_out, time_out};

use crate::calling::{OfNode, OfPair};
use kp_board::{BoardName, Pass};
use kp_model::EpochEnd;
use kp_node::{Isolation, Node, NodeState};
use kp_replica::{Role, Status};
use kp_segment::OffsetAndTimestamp;
use kp_types::{Epoch, Refusal};

/// A node's state.
#[repr(C)]
#[derive(Clone, Copy)]
pub struct StateOut {
    /// How often it was restarted.
    pub life: u64,
    /// Its log end offset.
    pub end: u64,
    /// Its high watermark.
    pub watermark: u64,
    /// The last stable offset at that watermark.
    pub stable: u64,
    /// The high watermark from which a restart begins.
    pub checkpoint: u64,
    /// Where it leads: its log's end when it began to; else 0.
    pub start: u64,
    /// The leader epoch that it last took up; 0 where it has taken up none.
    pub kept_epoch: u32,
    /// The leader epoch in which it leads or follows; else 0.
    pub epoch: u32,
    /// Whether it has ever taken up a leader epoch.
    pub adopted: bool,
    /// 0 where it is down, 1 idle, 2 where it leads, 3 where it follows.
    pub status: u8,
    /// Where it follows: the leader; else 0.
    pub leader: u8,
}

fn status_number(status: Status) -> u8
    ensures { result ≡ status_number status }
{
    match status {
        Status::Down => 0,
        Status::Idle => 1,
        Status::Plays(Role::Leads { .. }) => 2,
        Status::Plays(Role::Follows { .. }) => 3,
    }
}

fn status_epoch(status: Status) -> u32
    ensures { result ≡ status_epoch status }
{
    match status {
        Status::Down | Status::Idle => 0,
        Status::Plays(Role::Leads { epoch, .. } | Role::Follows { epoch, .. }) => epoch,
    }
}

fn status_start(status: Status) -> u64
    ensures { result ≡ status_start status }
{
    match status {
        Status::Plays(Role::Leads { start, .. }) => start,
        _ => 0,
    }
}

fn status_leader(status: Status) -> u8
    ensures { result ≡ status_leader status }
{
    match status {
        Status::Plays(Role::Follows { leader, .. }) => leader,
        _ => 0,
    }
}

impl StateOut {
    /// A state as it is told. O(1).
    pub fn of(state: NodeState) -> StateOut
        ensures { result ≡ state_out state }
    {
        StateOut {
            life: state.life,
            end: state.end,
            watermark: state.watermark,
            stable: state.stable,
            checkpoint: state.checkpoint,
            start: status_start(state.status),
            kept_epoch: state.kept_epoch.unwrap_or(0),
            epoch: status_epoch(state.status),
            adopted: state.kept_epoch.is_some(),
            status: status_number(state.status),
            leader: status_leader(state.status),
        }
    }
}

/// Where a leader epoch ends, if there is one.
#[repr(C)]
#[derive(Clone, Copy)]
pub struct EpochOut {
    /// Where it ends; 0 where there is none.
    pub end: u64,
    /// The leader epoch; 0 where there is none.
    pub epoch: u32,
    /// Whether there is one.
    pub found: bool,
}

impl EpochOut {
    /// An epoch's end as it is told. O(1).
    pub fn of(found: Option<EpochEnd>) -> EpochOut
        ensures { result ≡ epoch_out found }
    {
        match found {
            Some(end) => EpochOut {
                end: end.end,
                epoch: end.epoch,
                found: true,
            },
            None => EpochOut {
                end: 0,
                epoch: 0,
                found: false,
            },
        }
    }
}

/// The offset for a time, if there is one.
#[repr(C)]
#[derive(Clone, Copy)]
pub struct TimeOut {
    /// The record's offset; 0 where there is none.
    pub offset: u64,
    /// Its timestamp, in milliseconds; 0 where there is none.
    pub timestamp: u64,
    /// Whether there is one.
    pub found: bool,
}

impl TimeOut {
    /// An offset as it is told. O(1).
    pub fn of(found: Option<OffsetAndTimestamp>) -> TimeOut
        ensures { result ≡ time_out found }
    {
        match found {
            Some(record) => TimeOut {
                offset: record.offset,
                timestamp: record.timestamp,
                found: true,
            },
            None => TimeOut {
                offset: 0,
                timestamp: 0,
                found: false,
            },
        }
    }
}

/// The node's state, as by `Node::show`.
#[derive(Drop)]
pub struct Show;

impl OfNode<NodeState> for Show {
    ghost use Rattle.kp_handles.specs.Telling.{Shows};

    ghost gives = { λ _. Shows };

    fn ask<B: BoardName>(self, node: &mut Node<B>) -> Result<NodeState, Refusal> {
        Ok(node.show())
    }
}

/// Where the epoch ends in the leader's log, as by `Node::end_for`.
#[derive(Drop)]
pub struct EndFor {
    pub epoch: Epoch,
}

impl OfNode<Option<EpochEnd>> for EndFor {
    ghost use Rattle.kp_handles.specs.Telling.{EndsFor};

    ghost gives = { λ e. EndsFor e.epoch };

    fn ask<B: BoardName>(self, node: &mut Node<B>) -> Result<Option<EpochEnd>, Refusal> {
        node.end_for(self.epoch)
    }
}

/// The offset for a time, as by `Node::offset_for_time`.
#[derive(Drop)]
pub struct OffsetForTime {
    pub time: u64,
    pub isolation: Isolation,
}

impl OfPair<Option<OffsetAndTimestamp>> for OffsetForTime {
    ghost use Rattle.kp_node.specs.Tells.{TellsOffset};

    ghost gives = { λ o. TellsOffset o.time o.isolation };

    fn ask<B: BoardName>(
        self,
        node: &mut Node<B>,
        pass: &mut Pass<B>,
    ) -> Result<Option<OffsetAndTimestamp>, Refusal> {
        node.offset_for_time(pass, self.time, self.isolation)
    }
}
