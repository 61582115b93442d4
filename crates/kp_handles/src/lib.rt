//! What a service calls by handles: boards, nodes, passes, messages and what was read, owned with no thread and no lock.
//! It stands on kp_node and kp_board, and on the host's memory behind a handle's pointer.
//! Its contracts say, of what the handles hold, what those of kp_node and kp_board say, whoever the board is.
#![tactic(auto)]

mod again;
mod callers;
mod calling;
mod clusters;
mod describing;
mod finding;
mod handing;
mod handle;
mod holding;
mod left;
mod looking;
mod loose;
mod messages;
mod misuse;
mod nodes;
mod numbers;
mod object;
mod outs;
mod producing;
mod reading;
mod records;
mod saying;
mod segments;
mod telling;

pub use again::{keep, leave, next_decided, next_elected, open_left, take_left};
pub use callers::{Elect, Leadership, Recall, Watermark, tell_receipts};
pub use calling::{Called, give_by_node, give_by_pair, with_node, with_pair, with_pass};
pub use clusters::{close, open, open_caller, open_node};
pub use describing::{AskKnown, AskProducer, KnownOut, ListOpen, ProducerOut, ReadLog};
pub use finding::{FoundOut, find_batches};
pub use handing::hand;
pub use handle::{Handle, Unnamed, is_open};
pub use holding::{
    AbortedAt, Addressee, BatchSize, Count, FetchedAt, HeadAt, OpenAt, ValueAt, WriteBatch,
    WriteValue,
};
pub use left::{KeptIn, LeftNodes, PromiseIn};
pub use looking::{look, look_into};
pub use messages::{SendMessage, decide, repeat, step};
pub use misuse::Misuse;
pub use nodes::{Adopt, Checkpoint, Raise, Restart, Stop};
pub use numbers::{misuse_number, refusal_number, write_name};
pub use outs::{
    AbortedOut, FetchedOut, HeadOut, LeadershipOut, LimitsIn, MarkerIn, OpenOut, ReceiptOut,
    RestartOut, RoleOut, ValueOut, ack_out, change_in,
};
pub use producing::{Acked, mark_in, produce, produce_handed};
pub use reading::{Fetch, Read, ReadCommitted, isolation_in};
pub use records::{PartAt, PartOut, RecordAt, RecordIn, RecordOut, WritePart};
pub use saying::{SaidOut, Saying};
pub use segments::{ShareSegments, segment};
pub use telling::{EndFor, EpochOut, OffsetForTime, Show, StateOut, TimeOut};
