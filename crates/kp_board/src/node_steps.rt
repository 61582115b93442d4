//! A node's steps: each is one operation on one word, and one event of that node in the run or none.
//! None takes memory or waits. `_said` is read by nobody: a caller names the event by what it hands in there.
ghost use Rattle.std.specs.Prelude.{◌≡◌, ◌+◌, ◌*◌, ◌≤◌, max, [], ◌∷◌, ◌++◌};
ghost use Rattle.kp_model.specs.Event.{Act};
ghost use Rattle.kp_model.specs.World.{LeaderAndIsr as ModelRecord, Message};
ghost use Rattle.kp_model.specs.Set.{record_of};
ghost use Rattle.kp_board.specs.Premises.{MayStep, MayStepUnder, ShowsAWorld};
ghost use Rattle.kp_board.specs.Plays.{Finds};

use crate::board::Board;
use crate::passes::{BoardName, MessagePass, NodePass};
use crate::plays::{
    NodeStep, Raises, SendingStep, Stays, StepUnderRecord, Steps, StepsAndSends, StepsUnder,
};
use crate::word::record_of_word;
use kp_model::LeaderAndIsr;

impl<B: BoardName> Board<B> {
    /// An event of a node by a store of its log end offset to its end word: an append, or the taking of fetched batches. A
    /// run has the world in which it happens, so that the laws of runs hold of what the node and its messages were. O(1).
    /// (Own rule.)
    pub fn store_end<E: NodeStep, T>(&self, pass: &mut NodePass<B>, end: u64, _said: &T)
        requires may { (act : Act) × MayStep pass.old act E.next E.sent }
        requires mark { pass.old.state.watermark ≤ max pass.old.published E.next.watermark }
        ensures pass { pass.new ≡ record pass.old { state = E.next; told = E.sent ++ pass.old.told } }
        ensures run { ShowsAWorld pass.old }
    {
        let word = 2 * pass.number as usize + 1;
        self.table
            .shared
            .store::<Steps<E>>(&mut pass.seat, word, end);
    }

    /// An event of a node by a load of its end word, which leaves all words as they are: a checkpoint, a stop, a restart, or
    /// a refused call. O(1). (Own rule.)
    pub fn load_end<E: NodeStep, T>(&self, pass: &mut NodePass<B>, _said: &T)
        requires may { (act : Act) × MayStep pass.old act E.next E.sent }
        requires mark { pass.old.state.watermark ≤ max pass.old.published E.next.watermark }
        ensures { pass.new ≡ record pass.old { state = E.next; told = E.sent ++ pass.old.told } }
    {
        let word = 2 * pass.number as usize + 1;
        self.table.shared.load::<Steps<E>>(&mut pass.seat, word);
    }

    /// An event of a node with one message, by a load of its end word: it asks, serves a request, or proposes another in-sync
    /// set. The answer is the message's pass. A run has the world in which it happens. O(1). (Own rule.)
    pub fn load_end_sending<E: SendingStep, T, U>(
        &self,
        pass: &mut NodePass<B>,
        _said: &T,
        _message: &U,
    ) -> MessagePass<B>
        requires may { (act : Act) × (m : Message) × E.fits m × MayStep pass.old act E.next (m ∷ []) }
        requires mark { pass.old.state.watermark ≤ max pass.old.published E.next.watermark }
        ensures fits { E.fits result }
        ensures pass { pass.new ≡ record pass.old { state = E.next; told = result ∷ pass.old.told } }
        ensures run { ShowsAWorld pass.old }
    {
        let word = 2 * pass.number as usize + 1;
        self.table
            .shared
            .load::<StepsAndSends<E>>(&mut pass.seat, word);
        self.message_pass(pass)
    }

    /// A node raises its watermark, by the greater of its mark word and the new watermark. O(1). (Own rule.)
    pub fn raise_mark<E: NodeStep, T>(&self, pass: &mut NodePass<B>, mark: u64, _said: &T)
        requires may { (act : Act) × MayStep pass.old act E.next [] }
        requires mark { (mark ≡ E.next.watermark) × (pass.old.state.watermark ≤ max pass.old.published mark) }
        ensures { pass.new ≡ record pass.old { state = E.next; published = max pass.old.published mark } }
    {
        let word = 2 * pass.number as usize + 2;
        self.table
            .shared
            .fetch_max::<Raises<E>>(&mut pass.seat, word, mark);
    }

    /// A node's mark word follows its watermark after a take. No event: the caller names the state that the node has. O(1). (Own
    /// rule.)
    pub fn publish_mark<E: NodeStep>(&self, pass: &mut NodePass<B>, watermark: u64)
        requires same { E.next ≡ pass.old.state }
        requires mark { watermark ≡ pass.old.state.watermark }
        ensures { pass.new ≡ record pass.old { published = max pass.old.published watermark } }
    {
        let word = 2 * pass.number as usize + 2;
        self.table
            .shared
            .fetch_max::<Raises<E>>(&mut pass.seat, word, watermark);
    }

    // The word under whose record a node steps, or which it only looks at.
    fn load_under_record<E: StepUnderRecord>(&self, pass: &mut NodePass<B>) -> u64
        requires { (act : Act) × MayStepUnder pass.old act E.next E.knows }
        ensures { (s : ModelRecord) × Finds pass.old.shown s result
            × (pass.new ≡ record pass.old { state = E.next s; shown = s }) × E.knows s }
    {
        self.table.shared.load::<StepsUnder<E>>(&mut pass.seat, 0)
    }

    /// An event of a node under the record that a load of word 0 finds: it adopts it, cuts its log, or learns from a decision; or
    /// only a look. The answer is that record, and of it is known what a run knows (`knows`). O(1). (Own rule.)
    pub fn step_under_record<E: StepUnderRecord, T>(
        &self,
        pass: &mut NodePass<B>,
        _said: &T,
    ) -> LeaderAndIsr
        requires { (act : Act) × MayStepUnder pass.old act E.next E.knows }
        ensures shown { pass.new ≡ record pass.old { state = E.next (record_of result); shown = record_of result } }
        ensures later { pass.old.shown.version ≤ (record_of result).version }
        ensures known { E.knows (record_of result) }
    {
        let word = self.load_under_record::<E>(pass);
        record_of_word(word)
    }

    /// A node's end word follows its log end offset after a cut. No event. O(1). (Own rule.)
    pub fn publish_end(&self, pass: &mut NodePass<B>, end: u64)
        ensures { pass.new ≡ pass.old }
    {
        let word = 2 * pass.number as usize + 1;
        self.table.shared.store::<Stays>(&mut pass.seat, word, end);
    }
}
