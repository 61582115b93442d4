//! A race, told.

ghost use Rattle.std.specs.Prelude.{◌≡◌, ◌+◌, ◌<◌, ◌^◌, IfErr, OnOk, OnErr};
ghost use Rattle.kp_types.specs.declared.refusal.Refusal.TheVariants.{Device};
ghost use Rattle.kp_types.specs.Devices.{IsBegun, IsOut, faults_of};
ghost use Rattle.kp_cli.specs.Raced.{EndsRace, agree_status, agree_word, race_lines};

use crate::telling::refuse;
use itoa::Buffer;
use kp_race::{Outcome, Plan};
use kp_types::{Counted, NodeId, Refusal};
use std::io::Write;

/// The word of the last line.
fn agreement(agree: bool) -> &'static str
    ensures { result.now ≡ agree_word agree }
{
    if agree { "yes\n" } else { "no\n" }
}

/// Prints the five lines of what came of a race, by one write.
fn write_outcome<W: Write>(out: &mut Counted<W>, outcome: &Outcome) -> Result<(), Refusal>
    requires { faults_of out.old + 1 < 2 ^ 64 }
    ensures ok { OnOk result (IsOut W.contents out.old out.new (race_lines outcome.now)) }
    ensures err { OnErr result (IsBegun W.contents out.old out.new (race_lines outcome.now)) }
    ensures only { IfErr result (λ refusal. refusal ≡ Device) }
{
    let (mut nodes, mut receipts) = (Buffer::new(), Buffer::new());
    let (mut acknowledged, mut committed) = (Buffer::new(), Buffer::new());
    out.write_each(&[
        "nodes ".as_bytes(),
        nodes.format(outcome.nodes).as_bytes(),
        "\nreceipts ".as_bytes(),
        receipts.format(outcome.receipts).as_bytes(),
        "\nacknowledged ".as_bytes(),
        acknowledged.format(outcome.acknowledged).as_bytes(),
        "\ncommitted ".as_bytes(),
        committed.format(outcome.committed).as_bytes(),
        "\nagree ".as_bytes(),
        agreement(outcome.agree).as_bytes(),
    ])
}

/// 0 where all nodes agree, and 1 where they don't.
fn status_of(agree: bool) -> u8
    ensures { result ≡ agree_status agree }
{
    if agree { 0 } else { 1 }
}

/// Has a race run, once, as `races` is given away by its call, and prints its five lines. Answers the exit status: 0 where all nodes
/// agree, 1 where they don't, where standard output failed, and where the race was refused.
pub(crate) fn race_and_tell<
    X: FnOnce(NodeId, Plan) -> Result<Outcome, Refusal> + Drop,
    W: Write,
    E: Write,
>(nodes: NodeId, plan: Plan, races: X, out: &mut Counted<W>, err: &mut Counted<E>) -> u8
    requires races { X.pre races nodes plan }
    requires writes { faults_of out.old + 1 < 2 ^ 64 }
    requires complaints { faults_of err.old + 1 < 2 ^ 64 }
    ensures { EndsRace W.contents E.contents (X.post races nodes plan) out.old out.new err.old err.new result }
{
    match races(nodes, plan) {
        Ok(outcome) => match write_outcome(out, &outcome) {
            Ok(()) => status_of(outcome.agree),
            Err(refusal) => refuse(err, refusal),
        },
        Err(refusal) => refuse(err, refusal),
    }
}
