//! What a message says, and who sent it.

ghost use Rattle.std.specs.Prelude.{◌≡◌};
ghost use Rattle.kp_model.specs.Letter.{letter};
ghost use Rattle.kp_handles.specs.Saying.{blank, end_epoch, end_offset, in_sync_out, record_epoch, said_out, sender_out};

use crate::looking::SeenOf;
use crate::misuse::Misuse;
use crate::object::{Kind, Object};
use kp_board::BoardName;
use kp_model::{EpochEnd, LeaderAndIsr, MessageBody, Said};
use kp_types::NODE_PLACES;

/// What a message says. What its kind hasn't got is 0, or false.
#[repr(C)]
#[derive(Clone, Copy)]
pub struct SaidOut {
    /// Of a request, the asker's log end offset; of an answer that the logs diverge, where the epoch ends in the leader's log.
    pub offset: u64,
    /// Of an answer with batches, how many.
    pub count: u64,
    /// Of an answer with batches, the leader's high watermark.
    pub watermark: u64,
    /// Of a request, the leader epoch of the asker's last batch; of an answer that the logs diverge, the epoch that the leader has; of a
    /// decision, the leader epoch. All bits are set where there is none.
    pub epoch: u32,
    /// Of a proposal, the version of the controller's record that its sender knows; of a decision, of the record that stands.
    pub version: u32,
    /// 0 for a request, 1 for an answer with batches, 2 for one that the logs diverge, 3 for a proposal, 4 for a decision.
    pub kind: u8,
    /// The node that sent it; 255 for the controller.
    pub sender: u8,
    /// Of a proposal, the in-sync replicas that it asks for; of a decision, those that stand.
    pub in_sync: [bool; NODE_PLACES],
}

// The node that sent the message; 255 where that is the controller.
fn sender_out(body: &MessageBody) -> u8
    ensures { result ≡ sender_out (letter body.now) }
{
    match body {
        MessageBody::FetchRequest(request) => request.from,
        MessageBody::FetchAnswer(answer) => answer.request.to,
        MessageBody::Proposal(proposal) => proposal.from,
        MessageBody::Decision(_) => u8::MAX,
    }
}

fn end_epoch(end: Option<EpochEnd>) -> u32
    ensures { result ≡ end_epoch end }
{
    match end {
        Some(EpochEnd { epoch, .. }) => epoch,
        None => u32::MAX,
    }
}

fn end_offset(end: Option<EpochEnd>) -> u64
    ensures { result ≡ end_offset end }
{
    match end {
        Some(EpochEnd { end, .. }) => end,
        None => 0,
    }
}

fn epoch_of(decided: &LeaderAndIsr) -> u32
    ensures { result ≡ record_epoch decided.now }
{
    match decided.leader {
        Some(leader) => leader.epoch,
        None => u32::MAX,
    }
}

// The in-sync replicas that the message names.
fn in_sync_out(said: &Said) -> [bool; NODE_PLACES]
    ensures { result ≡ in_sync_out said.now }
{
    match said {
        Said::Proposes { isr, .. } => isr.members,
        Said::Decides(record) => record.isr.members,
        _ => [false; NODE_PLACES],
    }
}

impl SaidOut {
    // One that says nothing yet, but for these replicas.
    fn blank(sender: u8, in_sync: [bool; NODE_PLACES]) -> SaidOut
        ensures { result ≡ blank sender in_sync }
    {
        SaidOut {
            offset: 0,
            count: 0,
            watermark: 0,
            epoch: 0,
            version: 0,
            kind: 0,
            sender,
            in_sync,
        }
    }

    /// What a message says, as it is told. O(1).
    pub fn of(sender: u8, said: Said) -> SaidOut
        ensures { result ≡ said_out sender said }
    {
        let mut told = SaidOut::blank(sender, in_sync_out(&said));
        match said {
            Said::AsksFrom { offset, last_epoch } => {
                told.offset = offset;
                told.epoch = last_epoch.unwrap_or(u32::MAX);
            }
            Said::Batches { count, watermark } => {
                told.kind = 1;
                told.count = count;
                told.watermark = watermark;
            }
            Said::Diverging(end) => {
                told.kind = 2;
                told.offset = end_offset(end);
                told.epoch = end_epoch(end);
            }
            Said::Proposes { version, .. } => {
                told.kind = 3;
                told.version = version;
            }
            Said::Decides(decided) => {
                told.kind = 4;
                told.epoch = epoch_of(&decided);
                told.version = decided.version;
            }
        }
        told
    }
}

/// What the message says, and who sent it. OtherKind. O(1), and no byte of a batch is copied.
#[derive(Drop)]
pub struct Saying;

impl SeenOf<SaidOut> for Saying {
    ghost use mathlib.Core.Path.{refl};
    ghost use Rattle.kp_handles.specs.Holding.{BadLetter};
    ghost use Rattle.kp_handles.specs.Saying.{HasSaid};

    ghost sees = { λ _. HasSaid };

    ghost fails = { λ _. BadLetter };

    ghost closed = { λ _. refl };

    fn look<B: BoardName>(self, object: &Object<B>) -> Result<SaidOut, Misuse> {
        match &object.kind {
            Kind::Message(message) => {
                let sender = sender_out(&message.body);
                Ok(SaidOut::of(sender, message.body.said()))
            }
            _ => Err(Misuse::OtherKind),
        }
    }
}
