//! The protocol's messages, as they go over the wire.

ghost use Rattle.std.specs.Prelude.{◌≡◌, IsFalse, IfOk, is_some};
ghost use Rattle.kp_types.specs.Causes.{IsRefusedOnlyBy};
ghost use Rattle.kp_model.specs.Beginning.{find_map};
ghost use Rattle.kp_model.specs.Log.{carry_cause};

use crate::record::{LeaderAndIsr, NodeSet};
use kp_batch::Batch;
use kp_types::{Epoch, GREATEST_OFFSET, NodeId, Offset, Refusal};
use std::alloc::Global;
use std::marker::Model;
use std::sync::Arc;

/// A follower asks for the batches that come after its log. (Kafka protocol guide, 'Fetch'; KIP-320 for the epoch;
/// own: the last epoch and the life.)
#[derive(Clone, Copy, PartialEq, Eq)]
pub struct FetchRequest {
    /// Who asks.
    pub from: NodeId,
    /// The leader that it follows, to whom the request goes.
    pub to: NodeId,
    /// The leader epoch in which it follows.
    pub epoch: Epoch,
    /// How often the asker had been restarted.
    pub life: u64,
    /// Its log's end, from 0.
    pub offset: Offset,
    /// The leader epoch of its last batch; none for an empty log.
    pub last_epoch: Option<Epoch>,
}

/// Batches that a leader hands over, with its high watermark.
#[derive(Drop)]
pub struct Fetched {
    /// The batches from the asked offset on, shared with the leader's log, so that no byte is copied; and the list itself with
    /// all answers that have the same one.
    pub batches: Arc<Vec<Batch>, Global>,
    /// The leader's high watermark.
    pub watermark: Offset,
    pub ghost carried: { IsFalse (is_some (find_map carry_cause batches.value.items)) },
}

/// Where a leader epoch ends in a leader's log.
#[derive(Clone, Copy, PartialEq, Eq)]
pub struct EpochEnd {
    /// The greatest leader epoch at most the asked one that the leader's log has.
    pub epoch: Epoch,
    /// The offset after the last record of that epoch.
    pub end: Offset,
}

/// Where the asked epoch ends in a leader's log, or that the log has no epoch at most that one (KIP-101, KIP-279), in sixteen
/// bytes, as a run keeps every answer.
#[derive(Drop)]
pub struct DivergingEpoch {
    end: Offset,
    epoch: Epoch,
    known: bool,
}

impl Model for DivergingEpoch {
    ghost use Rattle.std.specs.Prelude.{Option};
    ghost use Rattle.kp_model.specs.declared.message.EpochEnd.{EpochEnd};
    ghost use Rattle.kp_model.specs.Diverging.{end_if};

    ghost Value = { Option EpochEnd };

    ghost view = { λ d. end_if d.known d.epoch d.end };
}

impl DivergingEpoch {
    ghost use Rattle.std.specs.Prelude.{◌≡◌};

    /// That the epoch ends there, or none. O(1).
    pub fn new(end: Option<EpochEnd>) -> DivergingEpoch
        ensures { result ≡ end }
    {
        match end {
            Some(EpochEnd { epoch, end }) => DivergingEpoch {
                end,
                epoch,
                known: true,
            },
            None => DivergingEpoch {
                end: 0,
                epoch: 0,
                known: false,
            },
        }
    }

    /// Where the epoch ends; none where the log has no such epoch. O(1).
    pub fn end(&self) -> Option<EpochEnd>
        ensures { result ≡ self.now }
    {
        if self.known {
            Some(EpochEnd {
                epoch: self.epoch,
                end: self.end,
            })
        } else {
            None
        }
    }
}

/// What a leader finds for a request.
#[derive(Drop)]
pub enum Answered {
    /// Its log has all of the asker's.
    Batches(Fetched),
    /// It hasn't; so it tells where the asker's last epoch ends in its log. None where its log has no epoch at most
    /// that one. (KIP-101, KIP-279.)
    Diverging(DivergingEpoch),
}

/// What a leader answers to a request, with the request. It goes to the sender of the request.
#[derive(Drop)]
pub struct FetchAnswer {
    /// As it came, so that its sender knows to which log the answer is.
    pub request: FetchRequest,
    /// What the leader found by its own log.
    pub answered: Answered,
}

/// A leader asks the controller for another in-sync set. (KIP-497; Kafka protocol guide, 'AlterPartition'.)
#[derive(Clone, Copy, PartialEq, Eq)]
pub struct Proposal {
    /// Who asks.
    pub from: NodeId,
    /// The record as the leader knows it; the controller follows no proposal that names another one than its own.
    pub known: LeaderAndIsr,
    /// The in-sync set that it asks for.
    pub isr: NodeSet,
}

/// What the controller says to a proposal, with the proposal. It goes to the sender of the proposal.
#[derive(Clone, Copy, PartialEq, Eq)]
pub struct Decision {
    /// As it came.
    pub proposal: Proposal,
    /// The record that stands then, whether or not the proposal was followed.
    pub decided: LeaderAndIsr,
}

/// The body of a message of the protocol: a follower's request, a leader's answer to it, a leader's proposal to the
/// controller, or the controller's decision on it.
#[derive(Drop)]
pub enum MessageBody {
    FetchRequest(FetchRequest),
    FetchAnswer(FetchAnswer),
    Proposal(Proposal),
    Decision(Decision),
}

// A run keeps every message.
const _: () = prove!(size_of::<MessageBody>() == 64);

// Whether a log can keep the batch. O(1).
fn test_batch(batch: &Batch) -> Result<(), Refusal>
    ensures { IsRefusedOnlyBy (carry_cause batch.now) result }
{
    if batch.leader_epoch().is_none() {
        return Err(Refusal::EpochBack);
    }
    let count = u64::from(batch.count());
    if GREATEST_OFFSET + 1 - count < batch.base_offset() {
        return Err(Refusal::OffsetsExhausted);
    }
    Ok(())
}

// Whether a log can keep each of the batches. One pass.
fn test_batches(batches: &[Batch]) -> Result<(), Refusal>
    ensures { IsRefusedOnlyBy (find_map carry_cause batches.now) result }
{
    for batch in batches {
        test_batch(batch)?;
    }
    Ok(())
}

impl Fetched {
    ghost use Rattle.std.specs.Prelude.{◌≡◌, IfOk};

    /// These batches, with this watermark. The first batch that no log can keep refuses them: `EpochBack` (F27) for one
    /// that no leader has stamped, `OffsetsExhausted` (F25) for one whose last offset is above 2^62 - 1. Whether the
    /// batches follow one another, and the follower's log, the taking node tests. One pass over the batches, which copies
    /// none of their bytes; no memory.
    pub fn new(batches: Arc<Vec<Batch>, Global>, watermark: Offset) -> Result<Fetched, Refusal>
        ensures refused { IsRefusedOnlyBy (find_map carry_cause batches.value.items) result }
        ensures made { IfOk result (λ f. (f.batches ≡ batches) × (f.watermark ≡ watermark)) }
    {
        test_batches(&batches)?;
        Ok(Fetched { batches, watermark })
    }
}

/// What a message says, to be told: no share of a batch.
#[derive(Clone, Copy)]
pub enum Said {
    /// A follower asks for the batches after its log: by the log's end, and by its last batch's leader epoch, none for an
    /// empty log.
    AsksFrom {
        offset: Offset,
        last_epoch: Option<Epoch>,
    },
    /// A leader hands over so many batches, with its high watermark.
    Batches {
        count: u64,
        watermark: Offset,
    },
    /// A leader hasn't all of the follower's log, and says where the follower's last epoch ends in its own; none where
    /// its log has no epoch at most that one.
    Diverging(Option<EpochEnd>),
    /// A leader asks for this in-sync set, by the record's version that it knows.
    Proposes {
        isr: NodeSet,
        version: u32,
    },
    /// The controller says which record stands after it has looked at a proposal.
    Decides(LeaderAndIsr),
}

impl MessageBody {
    ghost use Rattle.std.specs.Prelude.{◌≡◌, IfOk, IfErr, OnErr};
    ghost use Rattle.kp_types.specs.declared.refusal.Refusal.TheVariants.{Memory};
    ghost use Rattle.kp_model.specs.Letter.{goes_to, letter, HasBatches};
    ghost use Rattle.kp_model.specs.Calls.{said_reply, sent_reply};

    /// The node to which the message goes: the leader that a request's sender follows, the sender of an answer's
    /// request, or of a decision's proposal; none where it goes to the controller, as a proposal does. O(1).
    pub fn addressee(&self) -> Option<NodeId>
        ensures { result ≡ goes_to (letter self.now) }
    {
        match self {
            MessageBody::FetchRequest(request) => Some(request.to),
            MessageBody::FetchAnswer(answer) => Some(answer.request.from),
            MessageBody::Proposal(_) => None,
            MessageBody::Decision(decision) => Some(decision.proposal.from),
        }
    }

    /// What the message says. O(1).
    pub fn said(&self) -> Said
        ensures { said_reply result ≡ sent_reply (letter self.now) }
    {
        match self {
            MessageBody::FetchRequest(request) => Said::AsksFrom {
                offset: request.offset,
                last_epoch: request.last_epoch,
            },
            MessageBody::FetchAnswer(answer) => match &answer.answered {
                Answered::Batches(fetched) => Said::Batches {
                    count: fetched.batches.len() as u64,
                    watermark: fetched.watermark,
                },
                Answered::Diverging(end) => Said::Diverging(end.end()),
            },
            MessageBody::Proposal(proposal) => Said::Proposes {
                isr: proposal.isr,
                version: proposal.known.version,
            },
            MessageBody::Decision(decision) => Said::Decides(decision.decided),
        }
    }

    /// The message once more, as one that a carrier repeats: it says the same, and an answer's list of batches is shared. F33
    /// is the only refusal, of an answer with batches alone, where the list's count of owners is full; O(1), and no memory.
    pub fn share(&self) -> Result<MessageBody, Refusal>
        ensures same { IfOk result (λ body. letter body ≡ letter self.now) }
        ensures only { IfErr result (λ refusal. refusal ≡ Memory) }
        ensures plain { OnErr result (HasBatches (letter self.now)) }
    {
        match self {
            MessageBody::FetchRequest(request) => Ok(MessageBody::FetchRequest(*request)),
            MessageBody::FetchAnswer(answer) => {
                let answered = match &answer.answered {
                    Answered::Batches(fetched) => Answered::Batches(Fetched {
                        batches: Arc::try_clone(&fetched.batches)?,
                        watermark: fetched.watermark,
                    }),
                    Answered::Diverging(end) => {
                        Answered::Diverging(DivergingEpoch::new(end.end()))
                    }
                };
                Ok(MessageBody::FetchAnswer(FetchAnswer {
                    request: answer.request,
                    answered,
                }))
            }
            MessageBody::Proposal(proposal) => Ok(MessageBody::Proposal(*proposal)),
            MessageBody::Decision(decision) => Ok(MessageBody::Decision(*decision)),
        }
    }
}
