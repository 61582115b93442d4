//! What a leader knows of the other nodes' logs in this leadership: reported ends, the least of them, who has caught up.
//! It stands on kp_model's set of nodes and its definition of a leader's reports.
//! The layer above sees the definitions' list of reports, the end over the known and the pending set that raises the high
//! watermark, and who may join.
#![tactic(auto)]

mod positions;

ghost use Rattle.kp_insync.specs.Laws.{ReportsAreKept, EndsAreKnown, JoinersHaveCaughtUp};

pub use positions::Positions;

/// A report is kept as the definitions keep a request's, the ends are those that they compare, and who may join is whom they
/// let join. It costs nothing.
pub fn reports_are_the_definitions()
    ensures kept { ReportsAreKept }
    ensures known { EndsAreKnown }
    ensures joining { JoinersHaveCaughtUp }
{}
