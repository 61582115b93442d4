//! What a producer has handed in.

ghost use Rattle.std.specs.Prelude.{◌≡◌, ◌<◌, ◌≤◌, [], IfErr, IfOk, OnOk, vec_len};
ghost use Rattle.kp_types.specs.declared.refusal.Refusal.TheVariants.{Memory};
ghost use Rattle.kp_race.specs.declared.handed_in.Tried.TheVariants.{Took};
ghost use Rattle.kp_race.specs.Tasks.{KeepsNewest, goes_on};

use kp_replica::Receipt;
use kp_types::Refusal;
use std::alloc::Global;

/// What a try to hand in a batch came to.
#[derive(Clone, Copy)]
pub(crate) enum Tried {
    /// A node took it.
    Took(Receipt),
    /// The leader lacks the batch before it, or has so many later ones that it doesn't know it any more.
    OutOfOrder,
    /// None of so many tries found a leader.
    NoLeader,
}

/// A producer's batches: the newest receipt of each that was handed in, and which batch is next. That is the first without a receipt,
/// or one before it that a new leader lacks.
#[derive(Drop)]
pub(crate) struct HandedIn {
    pub(crate) batches: u16,
    pub(crate) receipts: Vec<Receipt>,
    pub(crate) next: u16,
    seeks: bool,
    ghost known: { next ≤ vec_len receipts },
    ghost few: { vec_len receipts ≤ batches },
}

impl HandedIn {
    /// None of so many batches.
    pub(crate) fn none(alloc: Global, batches: u16) -> HandedIn
        ensures { result.batches ≡ batches }
    {
        HandedIn {
            batches,
            receipts: Vec::new(alloc),
            next: 0,
            seeks: false,
        }
    }

    // A node took the next batch. F33.
    fn took(&mut self, receipt: Receipt) -> Result<(), Refusal>
        requires { self.old.next < self.old.batches }
        ensures batches { self.new.batches ≡ self.old.batches }
        ensures ok { OnOk result (KeepsNewest (Took receipt) self.old.next self.old.receipts.items self.new.receipts.items) }
        ensures only { IfErr result (λ refusal. refusal ≡ Memory) }
    {
        match self.receipts.get_mut(usize::from(self.next)) {
            Some(former) => *former = receipt,
            None => self.receipts.push(receipt)?,
        }
        self.next += 1;
        self.seeks = false;
        Ok(())
    }

    // Seeks the batch behind the leader's last one: from the first without a receipt down, one a try.
    fn seek(&mut self)
        ensures batches { self.new.batches ≡ self.old.batches }
        ensures receipts { self.new.receipts.items ≡ self.old.receipts.items }
    {
        let last = self.batches.saturating_sub(1);
        let front = last.min(u16::try_from(self.receipts.len()).unwrap_or(last));
        self.next = match self.next.checked_sub(1) {
            Some(before) if self.seeks || self.next == front => before,
            _ => front,
        };
        self.seeks = true;
    }

    /// Takes in what a try to hand in the next batch came to. Says whether the producer goes on. F33.
    pub(crate) fn note(&mut self, tried: Tried) -> Result<bool, Refusal>
        requires { self.old.next < self.old.batches }
        ensures batches { self.new.batches ≡ self.old.batches }
        ensures goes { IfOk result (λ goes. goes ≡ goes_on tried) }
        ensures newest { OnOk result (KeepsNewest tried self.old.next self.old.receipts.items self.new.receipts.items) }
        ensures only { IfErr result (λ refusal. refusal ≡ Memory) }
    {
        match tried {
            Tried::Took(receipt) => self.took(receipt)?,
            Tried::OutOfOrder => self.seek(),
            Tried::NoLeader => return Ok(false),
        }
        Ok(true)
    }

    /// The receipts, in the order of the batches.
    pub(crate) fn into_receipts(self) -> Vec<Receipt>
        ensures same { result ≡ self.receipts }
        ensures few { vec_len result ≤ self.batches }
    {
        let HandedIn {
            batches: _,
            receipts,
            next: _,
            seeks: _,
        } = self;
        receipts
    }
}
