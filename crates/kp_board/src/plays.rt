//! What each step on a word tells, and what a caller names for one.
//!
//! A step's event stands in no argument: a caller names it by the ghost members of these traits, at `Brand`.
use crate::passes::BoardName;
use crate::views::SeatView;
use atomic_table::{Join, Play, Split};
use std::marker::{Brand, PhantomData};

/// What a node becomes by one event of its own, and the messages that it sends. It costs nothing.
pub trait NodeStep {
    ghost use Rattle.std.specs.Prelude.{List};
    ghost use Rattle.kp_model.specs.World.{Node, Message};

    ghost next: { Node };

    ghost sent: { List Message };
}

impl NodeStep for Brand {
    ghost use Rattle.std.specs.Prelude.{[]};
    ghost use Rattle.kp_model.specs.World.{fresh};

    ghost next = { fresh };

    ghost sent = { [] };
}

/// What a node becomes by one event of its own, and what is known of the one message that it sends. It costs nothing.
pub trait SendingStep {
    ghost use Rattle.kp_model.specs.World.{Node, Message};

    ghost next: { Node };

    ghost fits: { Message → Type 0 };
}

impl SendingStep for Brand {
    ghost use Rattle.std.specs.Prelude.{◌≡◌};
    ghost use Rattle.kp_model.specs.World.{fresh};

    ghost next = { fresh };

    ghost fits = { λ m. m ≡ m };
}

/// What a node becomes under the record that it finds, and what a run knows of that record. It costs nothing.
pub trait StepUnderRecord {
    ghost use Rattle.kp_model.specs.World.{LeaderAndIsr, Node};

    ghost next: { LeaderAndIsr → Node };

    ghost knows: { LeaderAndIsr → Type 0 };
}

impl StepUnderRecord for Brand {
    ghost use Rattle.std.specs.Prelude.{◌≡◌};
    ghost use Rattle.kp_model.specs.World.{fresh};

    ghost next = { λ _. fresh };

    ghost knows = { λ c. c ≡ c };
}

/// What is known of a receipt that is put to a pass's others. It costs nothing.
pub trait ReceiptFiling {
    ghost use Rattle.kp_board.specs.Views.{KeptReceipt};

    ghost fits: { KeptReceipt → Type 0 };
}

impl ReceiptFiling for Brand {
    ghost use Rattle.std.specs.Prelude.{◌≡◌};

    ghost fits = { λ x. x ≡ x };
}

/// Which node is elected, and the record after its election. It costs nothing.
pub trait Election {
    ghost use Rattle.std.specs.Prelude.{ℕ};
    ghost use Rattle.kp_model.specs.World.{LeaderAndIsr};

    ghost node: { ℕ };

    ghost record_after: { LeaderAndIsr };
}

impl Election for Brand {
    ghost use Rattle.kp_model.specs.World.{initial};

    ghost node = { 0 };

    ghost record_after = { initial 0 };
}

// A node's event.
pub(crate) struct Steps<E> {
    what: PhantomData<E>,
}

impl<E: NodeStep> Play<u8, SeatView> for Steps<E> {
    ghost use Rattle.kp_board.specs.Plays.{Stepped};

    ghost then = { Stepped E.next E.sent };
}

// A node's event with one message.
pub(crate) struct StepsAndSends<E> {
    what: PhantomData<E>,
}

impl<E: SendingStep> Play<u8, SeatView> for StepsAndSends<E> {
    ghost use Rattle.kp_board.specs.Plays.{SteppedAndSent};

    ghost then = { SteppedAndSent E.fits E.next };
}

// No event.
pub(crate) struct Stays;

impl Play<u8, SeatView> for Stays {
    ghost use Rattle.kp_board.specs.Plays.{Unchanged};

    ghost then = { Unchanged };
}

// A node's watermark rises, or its mark word follows.
pub(crate) struct Raises<E> {
    what: PhantomData<E>,
}

impl<E: NodeStep> Play<u8, SeatView> for Raises<E> {
    ghost use Rattle.kp_board.specs.Plays.{MarkRaised};

    ghost then = { MarkRaised E.next };
}

// A node's event under the record that it finds.
pub(crate) struct StepsUnder<E> {
    what: PhantomData<E>,
}

impl<E: StepUnderRecord> Play<u8, SeatView> for StepsUnder<E> {
    ghost use Rattle.kp_board.specs.Plays.{SteppedUnder};

    ghost then = { SteppedUnder E.next E.knows };
}

// A caller looks at the record.
pub(crate) struct Looks;

impl Play<u8, SeatView> for Looks {
    ghost use Rattle.kp_board.specs.Plays.{Looked};

    ghost then = { Looked };
}

// A caller looks at a watermark.
pub(crate) struct LooksAtMark;

impl Play<u8, SeatView> for LooksAtMark {
    ghost use Rattle.kp_board.specs.Plays.{MarkShown};

    ghost then = { MarkShown };
}

// A caller is shown what is promised.
pub(crate) struct SeesPromised<B> {
    what: PhantomData<B>,
}

impl<B: BoardName> Play<u8, SeatView> for SeesPromised<B> {
    ghost use Rattle.kp_board.specs.Plays.{Recalled};

    ghost then = { Recalled B.table.opening.promised };
}

// A caller keeps a receipt.
pub(crate) struct KeepsReceipt<E> {
    what: PhantomData<E>,
}

impl<E: ReceiptFiling> Play<u8, SeatView> for KeepsReceipt<E> {
    ghost use Rattle.kp_board.specs.Plays.{ReceiptKept};

    ghost then = { ReceiptKept E.fits };
}

// A caller elects a node.
pub(crate) struct Elects<E> {
    what: PhantomData<E>,
}

impl<E: Election> Play<u8, SeatView> for Elects<E> {
    ghost use Rattle.kp_board.specs.Plays.{Elected};

    ghost then = { Elected E.node E.record_after };
}

// The controller decides on a proposal.
pub(crate) struct DecidesOn;

impl Play<u8, SeatView> for DecidesOn {
    ghost use Rattle.kp_board.specs.Decisions.{Decided};

    ghost then = { Decided };
}

// The next node's pass is made.
pub(crate) struct Founds;

impl Split<SeatView> for Founds {
    ghost use Rattle.kp_board.specs.Views.{next_founder, founded_node};

    ghost left = { next_founder };

    ghost right = { founded_node };
}

// A caller's pass is made.
pub(crate) struct Admits;

impl Split<SeatView> for Admits {
    ghost use Rattle.kp_board.specs.Views.{admitting, admitted};

    ghost left = { admitting };

    ghost right = { admitted };
}

// A pass notes what it shows for another.
pub(crate) struct Notes;

impl Split<SeatView> for Notes {
    ghost use Rattle.kp_board.specs.Views.{noted};

    ghost left = { λ v. v };

    ghost right = { noted };
}

// A message's pass is split off.
pub(crate) struct Sends;

impl Split<SeatView> for Sends {
    ghost use Rattle.kp_board.specs.Views.{sent_message};

    ghost left = { λ v. v };

    ghost right = { sent_message };
}

// A caller's pass takes over the receipts that it is told of.
pub(crate) struct TakesReceipts;

impl Join<SeatView> for TakesReceipts {
    ghost use Rattle.kp_board.specs.Views.{receipts_of, spent};

    ghost both = { receipts_of };

    ghost spent = { spent };
}

// A pass that closes the board is split off.
pub(crate) struct Closes;

impl Split<SeatView> for Closes {
    ghost use Rattle.kp_board.specs.Views.{closing_of};

    ghost left = { λ v. v };

    ghost right = { closing_of };
}

// It takes in a node's pass.
pub(crate) struct Gathers;

impl Join<SeatView> for Gathers {
    ghost use Rattle.kp_board.specs.Views.{with_node_of, spent};

    ghost both = { with_node_of };

    ghost spent = { spent };
}

// A pass takes in what it is told.
pub(crate) struct Hears;

impl Join<SeatView> for Hears {
    ghost use Rattle.kp_board.specs.Views.{told_of, spent};

    ghost both = { told_of };

    ghost spent = { spent };
}
