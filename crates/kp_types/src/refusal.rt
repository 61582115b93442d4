//! Why a call was refused.

ghost use Rattle.std.specs.Prelude.{◌≡◌, IfNone, IfSome, Some};
ghost use Rattle.kp_types.specs.Texts.{IsNoRefusal, place_of, refusal_head, refusal_number, refusal_text};
ghost use Rattle.kp_types.specs.declared.refusal.Refusal.TheVariants.{Memory};

use std::alloc::{AllocError, AllocFailed};
use std::error::Error;
use std::fmt;

/// Why a call was refused. Numbers and names are those that the program prints; where Kafka's protocol
/// has an error code for it, that stands beside it.
#[derive(Clone, Copy, PartialEq, Eq)]
pub enum Refusal {
    /// Fewer bytes than the batch needs.
    Truncated,
    /// The magic isn't 2.
    BadMagic,
    /// The batch length is below 49, or bytes follow the batch.
    BadLength,
    /// The checksum differs (Kafka's error 2).
    BadCrc,
    /// The compression bits aren't 0.
    Compressed,
    /// An attribute bit other than 4 and 5, or bit 5 without bit 4.
    BadAttributes,
    /// A count, offset, epoch or timestamp field out of its range.
    BadCount,
    /// A record or marker that isn't of the grammar: the place of the record's first byte in its batch.
    BadRecord(u64),
    /// The batch has more than `max_batch` bytes (Kafka's error 10).
    TooLarge,
    /// The producer fields don't go together.
    BadProducerFields,
    /// The producer epoch is below the producer's (Kafka's error 47).
    InvalidProducerEpoch,
    /// The sequence isn't the producer's next one (Kafka's error 45).
    OutOfOrderSequence,
    /// The batch doesn't fit the producer's transaction (Kafka's error 48).
    InvalidTxnState,
    /// The marker's coordinator epoch is below the one of the producer's last marker.
    CoordinatorFenced,
    /// The node doesn't lead; for a request, it follows nobody (Kafka's error 6).
    NotLeader,
    /// A fetch that isn't at a boundary, or an offset above the log's end (Kafka's error 1).
    OffsetOutOfRange,
    /// The request's leader epoch is below the node's (Kafka's error 74, KIP-320).
    FencedLeaderEpoch,
    /// The request's leader epoch is above the node's (Kafka's error 75, KIP-320).
    UnknownLeaderEpoch,
    /// The offset is no batch boundary.
    NotBoundary,
    /// A truncation below the settled point.
    BelowSettled,
    /// The node isn't in the in-sync set, or can't leave it.
    NotInSync,
    /// The controller's record is no news, or has changed.
    StaleRecord,
    /// The follower hasn't caught up with the leader.
    NotCaughtUp,
    /// The record's version or epoch, or a node's life, is at its greatest.
    RecordFull,
    /// The last offset would pass 2^62 - 1.
    OffsetsExhausted,
    /// The base offset isn't the log's end.
    NotNext,
    /// The leader epoch is below the last batch's, or below 0.
    EpochBack,
    /// The node is down; for a restart, it isn't.
    Down,
    /// The answer is to no present request of the node; in a script, no message has that number.
    StaleAnswer,
    /// A client handed in a control batch.
    ControlFromClient,
    /// The script has a fault: its line. Nothing of it has run.
    BadScript(u64),
    /// The reader or the writer failed.
    Device,
    /// A growth was refused.
    Memory,
    /// Another in-sync change of this leader waits for the controller's answer.
    ChangePending,
    /// The folder isn't one that a run has left.
    BadFolder,
}

/// What this picks of a refusal's number and name.
macro_rules! by_refusal {
    ($refusal:expr, $pick:ident) => {
        match $refusal {
            Refusal::Truncated => $pick!(1, "Truncated"),
            Refusal::BadMagic => $pick!(2, "BadMagic"),
            Refusal::BadLength => $pick!(3, "BadLength"),
            Refusal::BadCrc => $pick!(4, "BadCrc"),
            Refusal::Compressed => $pick!(5, "Compressed"),
            Refusal::BadAttributes => $pick!(6, "BadAttributes"),
            Refusal::BadCount => $pick!(7, "BadCount"),
            Refusal::BadRecord(_) => $pick!(8, "BadRecord"),
            Refusal::TooLarge => $pick!(9, "TooLarge"),
            Refusal::BadProducerFields => $pick!(10, "BadProducerFields"),
            Refusal::InvalidProducerEpoch => $pick!(11, "InvalidProducerEpoch"),
            Refusal::OutOfOrderSequence => $pick!(12, "OutOfOrderSequence"),
            Refusal::InvalidTxnState => $pick!(13, "InvalidTxnState"),
            Refusal::CoordinatorFenced => $pick!(14, "CoordinatorFenced"),
            Refusal::NotLeader => $pick!(15, "NotLeader"),
            Refusal::OffsetOutOfRange => $pick!(16, "OffsetOutOfRange"),
            Refusal::FencedLeaderEpoch => $pick!(17, "FencedLeaderEpoch"),
            Refusal::UnknownLeaderEpoch => $pick!(18, "UnknownLeaderEpoch"),
            Refusal::NotBoundary => $pick!(19, "NotBoundary"),
            Refusal::BelowSettled => $pick!(20, "BelowSettled"),
            Refusal::NotInSync => $pick!(21, "NotInSync"),
            Refusal::StaleRecord => $pick!(22, "StaleRecord"),
            Refusal::NotCaughtUp => $pick!(23, "NotCaughtUp"),
            Refusal::RecordFull => $pick!(24, "RecordFull"),
            Refusal::OffsetsExhausted => $pick!(25, "OffsetsExhausted"),
            Refusal::NotNext => $pick!(26, "NotNext"),
            Refusal::EpochBack => $pick!(27, "EpochBack"),
            Refusal::Down => $pick!(28, "Down"),
            Refusal::StaleAnswer => $pick!(29, "StaleAnswer"),
            Refusal::ControlFromClient => $pick!(30, "ControlFromClient"),
            Refusal::BadScript(_) => $pick!(31, "BadScript"),
            Refusal::Device => $pick!(32, "Device"),
            Refusal::Memory => $pick!(33, "Memory"),
            Refusal::ChangePending => $pick!(34, "ChangePending"),
            Refusal::BadFolder => $pick!(35, "BadFolder"),
        }
    };
}

/// The number.
macro_rules! number {
    ($number:literal, $name:literal) => {
        $number
    };
}

/// Both, as they are printed.
macro_rules! head {
    ($number:literal, $name:literal) => {
        concat!("F", $number, " ", $name)
    };
}

impl Refusal {
    /// Its number, 1 to 35. O(1).
    pub fn number(&self) -> u32
        ensures { result ≡ refusal_number self.now }
    {
        by_refusal!(self, number)
    }

    /// Its number and name, as `F8 BadRecord`. O(1).
    #[tactic(auto, unfolding(crate::proofs::Heads::digits))]
    pub fn head(&self) -> &'static str
        ensures { result.now ≡ refusal_head self.now }
    {
        by_refusal!(self, head)
    }

    /// The refusal of this number, at place 0 where it names a place. O(1).
    pub fn of_number(number: u32) -> Option<Refusal>
        ensures some { IfSome result (λ refusal. refusal_number refusal ≡ number) }
        ensures none { IfNone result (IsNoRefusal number) }
    {
        match number {
            1 => Some(Refusal::Truncated),
            2 => Some(Refusal::BadMagic),
            3 => Some(Refusal::BadLength),
            4 => Some(Refusal::BadCrc),
            5 => Some(Refusal::Compressed),
            6 => Some(Refusal::BadAttributes),
            7 => Some(Refusal::BadCount),
            8 => Some(Refusal::BadRecord(0)),
            9 => Some(Refusal::TooLarge),
            10 => Some(Refusal::BadProducerFields),
            11 => Some(Refusal::InvalidProducerEpoch),
            12 => Some(Refusal::OutOfOrderSequence),
            13 => Some(Refusal::InvalidTxnState),
            14 => Some(Refusal::CoordinatorFenced),
            15 => Some(Refusal::NotLeader),
            16 => Some(Refusal::OffsetOutOfRange),
            17 => Some(Refusal::FencedLeaderEpoch),
            18 => Some(Refusal::UnknownLeaderEpoch),
            19 => Some(Refusal::NotBoundary),
            20 => Some(Refusal::BelowSettled),
            21 => Some(Refusal::NotInSync),
            22 => Some(Refusal::StaleRecord),
            23 => Some(Refusal::NotCaughtUp),
            24 => Some(Refusal::RecordFull),
            25 => Some(Refusal::OffsetsExhausted),
            26 => Some(Refusal::NotNext),
            27 => Some(Refusal::EpochBack),
            28 => Some(Refusal::Down),
            29 => Some(Refusal::StaleAnswer),
            30 => Some(Refusal::ControlFromClient),
            31 => Some(Refusal::BadScript(0)),
            32 => Some(Refusal::Device),
            33 => Some(Refusal::Memory),
            34 => Some(Refusal::ChangePending),
            35 => Some(Refusal::BadFolder),
            _ => None,
        }
    }

    /// The place in a batch, or the line of a script, that stands behind the name, where there is one. O(1).
    pub fn place(&self) -> Option<u64>
        ensures { result ≡ place_of self.now }
    {
        match self {
            Refusal::BadRecord(place) | Refusal::BadScript(place) => Some(*place),
            _ => None,
        }
    }
}

/// The text that a trace, a dump and standard error have: number, name, and where it has one the place
/// or the line, as `F8 BadRecord 61`.
impl fmt::Display for Refusal {
    ghost output = { λ refusal. Some (refusal_text refusal) };

    fn fmt<W: fmt::Write>(&self, f: &mut fmt::Formatter<W>) -> fmt::Result {
        f.write_str(self.head())?;
        match self.place() {
            Some(place) => write!(f, " {place}"),
            None => Ok(()),
        }
    }
}

/// The same text.
impl fmt::Debug for Refusal {
    ghost debug_output = { λ refusal. Some (refusal_text refusal) };

    fn fmt<W: fmt::Write>(&self, f: &mut fmt::Formatter<W>) -> fmt::Result {
        fmt::Display::fmt(self, f)
    }
}

impl Error for Refusal {}

impl From<AllocError> for Refusal {
    ghost from_gives = { λ _ refusal. refusal ≡ Memory };

    fn from(_: AllocError) -> Refusal {
        Refusal::Memory
    }
}

impl<T: Drop> From<AllocFailed<T>> for Refusal {
    ghost from_gives = { λ _ refusal. refusal ≡ Memory };

    fn from(_: AllocFailed<T>) -> Refusal {
        Refusal::Memory
    }
}
