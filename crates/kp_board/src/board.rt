//! The board, and a caller's steps.
ghost use Rattle.std.specs.Prelude.{◌≡◌, ℕ, ◌+◌, ◌*◌, ◌<◌, ◌≤◌, ◌∷◌, length, slice_get, slice_index, Some, Ok, Err, IfOk, IfErr, MatchBool, None, map, [], Contains};
ghost use Rattle.kp_types.specs.declared.refusal.Refusal.TheVariants.{Memory};
ghost use Rattle.kp_model.specs.World.{LeaderAndIsr as ModelRecord, most_nodes};
ghost use Rattle.kp_model.specs.Controller.{elected};
ghost use Rattle.kp_model.specs.Left.{IsOpening, node_in};
ghost use Rattle.kp_model.specs.Run.{Run};
ghost use Rattle.kp_model.specs.Step.{elect_cause};
ghost use Rattle.kp_model.specs.Set.{record_of};
ghost use Rattle.kp_control.specs.Word.{packed};
ghost use Rattle.kp_board.specs.Views.{KeptReceipt, new_caller, new_node, opened_node};
ghost use Rattle.kp_board.specs.Rule.{mark_word, ShowsLastRecord, ShowsElection};
ghost use Rattle.kp_board.specs.Plays.{Finds, Learned, Recalls, electing};
ghost use Rattle.kp_board.specs.Calls.{Elects, Looks};

use crate::opening::{BoardKey, Left};
use crate::passes::{BoardName, Callers, FreshPass, LeftPass, NodePass, Pass};
use crate::plays::{
    self, Admits, Election, Founds, KeepsReceipt, LooksAtMark, ReceiptFiling, SeesPromised,
};
use crate::rule::{BoardSeat, BoardTable};
use crate::word::record_of_word;
use kp_control::{elected, pack};
use kp_model::LeaderAndIsr;
use kp_types::{NODE_PLACES, NodeId, Offset, Refusal};
use std::alloc::Global;
use std::marker::{Brand, Model, PhantomData};

// Word 0, and an end word and a mark word for each node.
const MOST_WORDS: usize = 2 * NODE_PLACES + 1;

/// A board that no type names yet, and what makes its nodes' passes. A clause sees which words it is of. (Own rule.)
#[derive(Drop)]
pub struct Opened {
    table: BoardTable,
    first: BoardSeat,
    nodes: NodeId,
}

impl Model for Opened {
    ghost use Rattle.std.specs.Prelude.{◌≡◌, ℕ, ◌+◌, ◌*◌, ◌≤◌, []};
    ghost use Rattle.kp_board.specs.Opening.{BoardId};
    ghost use Rattle.kp_board.specs.Views.{founder};
    ghost use Rattle.kp_model.specs.Left.{beginning};

    ghost Value = { BoardId };

    ghost view = { λ o. record { words = o.table.shared.table_id.words; id = o.table.shared.table_id; opening = o.table.shared.key } };

    ghost invariant = { λ o. (o.first.table_id ≡ o.table.shared.table_id) × (o.first.me ≡ (founder 0 o.table.shared.key 0, [])) × (o.table.shared.key ≡ beginning o.nodes) × (o.table.shared.table_id.words ≡ 2 * o.nodes + 1) × (o.nodes ≤ 7) };
}

/// The same of a board that opens with what a run has left. (Own rule.)
#[derive(Drop)]
pub struct OpenedAgain {
    table: BoardTable,
    first: BoardSeat,
    nodes: NodeId,
}

impl Model for OpenedAgain {
    ghost use Rattle.std.specs.Prelude.{◌≡◌, ℕ, ◌+◌, ◌*◌, ◌≤◌, []};
    ghost use Rattle.kp_board.specs.Opening.{BoardId};
    ghost use Rattle.kp_board.specs.Views.{founder};

    ghost Value = { BoardId };

    ghost view = { λ o. record { words = o.table.shared.table_id.words; id = o.table.shared.table_id; opening = o.table.shared.key } };

    ghost invariant = { λ o. (o.first.table_id ≡ o.table.shared.table_id) × (o.first.me ≡ (founder 0 o.table.shared.key 0, [])) × (o.table.shared.key.count ≡ o.nodes) × (o.table.shared.table_id.words ≡ 2 * o.nodes + 1) × (o.nodes ≤ 7) };
}

/// The words that all threads share: word 0 is the controller's record, then each node has an end word and a mark word. A clause
/// sees the number of nodes. Share it by `&` or in an `Arc`. (Own rule.)
pub struct Board<B: BoardName> {
    pub(crate) table: BoardTable,
    pub(crate) nodes: NodeId,
    pub(crate) name: PhantomData<B>,
}

// By hand, so that a function that drops a board calls this, and isn't proved with what drops each of its parts.
impl<B: BoardName> Drop for Board<B> {
    fn drop(self) {
        let Board {
            table: _,
            nodes: _,
            name: _,
        } = self;
    }
}

impl<B: BoardName> Model for Board<B> {
    ghost use Rattle.std.specs.Prelude.{◌≡◌, ℕ, ◌+◌, ◌*◌, ◌≤◌};

    ghost Value = { ℕ };

    ghost view = { λ b. b.nodes };

    ghost invariant = { λ b. (b.table.shared.table_id ≡ B.table.id) × (b.table.shared.key.count ≡ b.nodes) × (B.table.words ≡ 2 * b.nodes + 1) × (b.nodes ≤ 7) × (B.table.id.words ≡ B.table.words) × (b.table.shared.key ≡ B.table.opening) };
}

impl Opened {
    /// The words of a board of 0 to 7 nodes, at the start of a run: no leader, all in sync, all logs empty. F33 is the only
    /// refusal. It takes one block of memory, of at most 15 words. (Own rule.)
    pub fn new(alloc: Global, nodes: NodeId) -> Result<Opened, Refusal>
        requires { nodes ≤ most_nodes }
        ensures made { IfOk result (λ o. o.words ≡ 2 * nodes + 1) }
        ensures only { IfErr result (λ refusal. refusal ≡ Memory) }
    {
        let mut words = [0u64; MOST_WORDS];
        words[0] = pack(&LeaderAndIsr::initial(nodes));
        let count = 2 * nodes as usize + 1;
        let key = BoardKey::beginning(nodes);
        let (table, first) = BoardTable::of_words(alloc, &words[..count], &key)?;
        Ok(Opened {
            table,
            first,
            nodes,
        })
    }
}

// The words of a board: the record's, and those of the nodes of these watermarks.
fn words_of(controller: &LeaderAndIsr, marks: &[Offset]) -> [u64; MOST_WORDS]
    requires { length marks.now ≤ most_nodes }
    ensures word { slice_index result 0 ≡ packed (record_of controller.now) }
    ensures marks { (k : ℕ) → k < length marks.now → slice_index result (mark_word k) ≡ slice_index marks.now k }
{
    let mut words = [0u64; MOST_WORDS];
    words[0] = pack(controller);
    let mut number = 0;
    while number < marks.len() {
        words[2 * number + 2] = marks[number];
        number += 1;
    }
    words
}

impl OpenedAgain {
    /// The words of a board of 0 to 7 nodes that opens with what a run has left: this record, and each node with its watermark, as
    /// the run's last world has them. A list that a node of the run held is promised: each caller's pass can be shown it
    /// (`Board::recall`). F33 is the only refusal. It takes two blocks of memory, of which one is let go at once. `_said` is read by
    /// nobody: a caller names what was left by what it hands in there. (Own rule.)
    pub fn new<E: Left, T>(
        alloc: Global,
        controller: &LeaderAndIsr,
        marks: &[Offset],
        _said: &T,
    ) -> Result<OpenedAgain, Refusal>
        requires small { length marks.now ≤ most_nodes }
        requires count { E.opening.count ≡ length marks.now }
        requires left { (r : Run E.opening.count) × IsOpening E.opening r }
        requires controller { record_of controller.now ≡ E.opening.controller }
        requires marks { (k : ℕ) → k < length marks.now → slice_index marks.now k ≡ (node_in E.opening k).watermark }
        ensures made { IfOk result (λ o. (o.words ≡ 2 * E.opening.count + 1) × (o.opening ≡ E.opening)) }
        ensures only { IfErr result (λ refusal. refusal ≡ Memory) }
    {
        let words = words_of(controller, marks);
        let count = 2 * marks.len() + 1;
        let key = BoardKey::of::<E>(alloc)?;
        let (table, first) = BoardTable::of_words(alloc, &words[..count], &key)?;
        Ok(OpenedAgain {
            table,
            first,
            nodes: marks.len() as NodeId,
        })
    }
}

impl<B: BoardName> Board<B> {
    /// The board under its name, the pass of each node once, in their order, and what makes the passes of callers, which has made
    /// none. F33 is the only refusal, of the list of passes. (Own rule.)
    pub fn new(
        alloc: Global,
        opened: Opened,
    ) -> Result<(Board<B>, Vec<FreshPass<B>>, Callers<B>), Refusal>
        requires { opened ≡ B.table }
        ensures nodes { IfOk result (λ r. 2 * r.0 + 1 ≡ opened.words) }
        ensures passes { IfOk result (λ r. (length r.1.items ≡ r.0)
            × ((k : ℕ) → k < r.0 → slice_get (map (λ f. f.pass) r.1.items) k ≡ Some (new_node r.0 k))) }
        ensures callers { IfOk result (λ r. r.2 ≡ 0) }
        ensures only { IfErr result (λ refusal. refusal ≡ Memory) }
    {
        let Opened {
            table,
            mut first,
            nodes,
        } = opened;
        let mut passes = Vec::with_capacity(alloc, nodes as usize)?;
        for number in 0..nodes {
            let seat = table.shared.split_seat::<Founds>(&mut first);
            let pass = NodePass {
                seat,
                number,
                name: PhantomData,
            };
            passes.push(FreshPass { pass })?;
        }
        let board = Board {
            table,
            nodes,
            name: PhantomData,
        };
        let callers = Callers {
            seat: first,
            name: PhantomData,
        };
        Ok((board, passes, callers))
    }

    /// The same of a board that opens with what a run has left: each node's pass shows the node as it was left, down. F33 is the only
    /// refusal, of the list of passes. (Own rule.)
    pub fn again(
        alloc: Global,
        opened: OpenedAgain,
    ) -> Result<(Board<B>, Vec<LeftPass<B>>, Callers<B>), Refusal>
        requires { opened ≡ B.table }
        ensures nodes { IfOk result (λ r. (2 * r.0 + 1 ≡ opened.words) × (r.0 ≡ opened.opening.count)) }
        ensures passes { IfOk result (λ r. (length r.1.items ≡ r.0)
            × ((k : ℕ) → k < r.0 → slice_get (map (λ f. f.pass) r.1.items) k ≡ Some (opened_node opened.opening k))) }
        ensures callers { IfOk result (λ r. r.2 ≡ 0) }
        ensures only { IfErr result (λ refusal. refusal ≡ Memory) }
    {
        let OpenedAgain {
            table,
            mut first,
            nodes,
        } = opened;
        let mut passes = Vec::with_capacity(alloc, nodes as usize)?;
        for node in 0..nodes {
            let seat = table.shared.split_seat::<Founds>(&mut first);
            let pass = NodePass {
                seat,
                number: node,
                name: PhantomData,
            };
            passes.push(LeftPass { pass })?;
        }
        let board = Board {
            table,
            nodes,
            name: PhantomData,
        };
        let callers = Callers {
            seat: first,
            name: PhantomData,
        };
        Ok((board, passes, callers))
    }

    /// How many nodes it is of. O(1).
    pub fn nodes(&self) -> NodeId
        ensures value { result ≡ self.now }
        ensures words { B.table.words ≡ 2 * result + 1 }
    {
        self.nodes
    }

    /// A new caller's pass: it has seen the empty list, the record of the start and watermark 0 of each node, and has changed
    /// nothing. A pass has no bytes, so none is refused. One load, without memory or waiting. O(1). (Own rule.)
    pub fn pass(&self, callers: &mut Callers<B>) -> Pass<B>
        ensures new { result ≡ new_caller self.now }
        ensures one { callers.new ≡ callers.old + 1 }
    {
        let _nodes = self.nodes; // as many as its words are for
        let seat = self.table.shared.split_seat::<Admits>(&mut callers.seat);
        Pass {
            seat,
            name: PhantomData,
        }
    }

    // What its words lie in.
    pub(crate) fn into_table(self) -> BoardTable
        ensures id { (result.shared.table_id ≡ B.table.id) × (B.table.id.words ≡ 2 * self + 1) }
        ensures key { (result.shared.key ≡ B.table.opening) × (B.table.opening.count ≡ self) }
        ensures small { self ≤ most_nodes }
    {
        let Board {
            table,
            nodes: _,
            name: _,
        } = self;
        table
    }

    // The word of the record that is then the one shown.
    fn look(&self, pass: &mut Pass<B>) -> u64
        ensures { (s : ModelRecord) × Finds pass.old.shown s result × (pass.new ≡ record pass.old { shown = s })
            × ShowsLastRecord (record pass.old { shown = s }) }
    {
        self.table.shared.load::<plays::Looks>(&mut pass.seat, 0)
    }

    // The word of the record that is then the one shown, and that record.
    fn found(&self, pass: &mut Pass<B>) -> (u64, LeaderAndIsr)
        ensures shown { pass.new ≡ record pass.old { shown = record_of result.1 } }
        ensures later { pass.old.shown.version ≤ (record_of result.1).version }
        ensures of_run { ShowsLastRecord pass.new }
        ensures word { result.0 ≡ packed (record_of result.1) }
    {
        let word = self.look(pass);
        (word, record_of_word(word))
    }

    /// The controller's record, which is then the one shown: some run has all that the pass shows, and this is its last record.
    /// Its version is not below the one shown before. One load, without memory or waiting. (Own rule.)
    pub fn record(&self, pass: &mut Pass<B>) -> LeaderAndIsr
        ensures { Looks pass.old pass.new result }
    {
        let found = self.found(pass);
        found.1
    }

    /// A watermark that this node had in the run, which is then the one shown for it, not below the one before. The pass has then
    /// seen a committed list at least that long, which begins with all that it had seen and been told. One load, without memory
    /// or waiting. (Own rule.)
    pub fn watermark(&self, pass: &mut Pass<B>, node: NodeId) -> Offset
        requires { node < self.now }
        ensures { Learned pass.old pass.new node result }
    {
        let _nodes = self.nodes;
        let word = 2 * node as usize + 2;
        self.table.shared.load::<LooksAtMark>(&mut pass.seat, word)
    }

    /// Makes what is promised a part of what the pass has seen: all that it sees later goes on from that. Of a board that opened at
    /// the start of a run nothing is promised. One load, without memory or waiting. (Own rule.)
    pub fn recall(&self, pass: &mut Pass<B>)
        ensures { Recalls B.table.opening.promised pass.old pass.new }
    {
        let _nodes = self.nodes;
        self.table.shared.load::<SeesPromised<B>>(&mut pass.seat, 0);
    }

    // One try to elect a node under the record that the pass was shown.
    fn exchange<E: Election>(&self, pass: &mut Pass<B>, node: NodeId, shown: u64, next: u64) -> bool
        requires free { elect_cause pass.old.shown node ≡ None }
        requires node { E.node ≡ node }
        requires after { E.record_after ≡ elected pass.old.shown node }
        requires shown { shown ≡ packed pass.old.shown }
        requires next { next ≡ packed E.record_after }
        ensures { MatchBool result
            ((pass.new ≡ electing (elected pass.old.shown node) pass.old)
            × ShowsElection node pass.old.shown pass.new)
            ((pass.new ≡ record pass.old { shown = pass.new.shown }) × (pass.old.shown.version < pass.new.shown.version)
            × ShowsLastRecord pass.new) }
    {
        let _nodes = self.nodes;
        self.table
            .shared
            .compare_exchange::<plays::Elects<E>>(&mut pass.seat, 0, shown, next)
            == shown
    }

    /// One try to elect the node as leader. Ok: one event of the run elected it; that record is the answer, it is shown now, and
    /// the pass has one election more. F21 where the record now shown doesn't have the node in sync, F24 where that record is
    /// full, F22 where another change came first; nothing has changed then but the record shown. A load and one exchange, without
    /// memory or waiting. (Own rule.)
    pub fn elect(&self, pass: &mut Pass<B>, node: NodeId) -> Result<LeaderAndIsr, Refusal>
        ensures { Elects node pass.old pass.new result }
    {
        let shown = self.found(pass);
        let next = elected(&shown.1, node)?;
        if self.exchange::<Brand>(pass, node, shown.0, pack(&next)) {
            Ok(next)
        } else {
            Err(Refusal::StaleRecord)
        }
    }

    /// Puts a receipt to those that a pass keeps. Its batch stands in the log that the pass was told of, so it was appended in
    /// the run. No event. One load, without memory or waiting. (Own rule.)
    pub fn keep_receipt<E: ReceiptFiling, T, U>(&self, pass: &mut Pass<B>, _said: &T, _receipt: &U)
        requires { (x : KeptReceipt) × E.fits x × Contains pass.old.told.log x.batch }
        ensures { (x : KeptReceipt) × E.fits x × (pass.new ≡ record pass.old { receipts = x ∷ pass.old.receipts }) }
    {
        self.table.shared.load::<KeepsReceipt<E>>(&mut pass.seat, 0);
    }
}
