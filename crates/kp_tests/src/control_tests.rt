//! The controller's record as a word, and what is decided on a proposal.

use kp_control::{decided, elected, pack, unpack};
use kp_model::{LeaderAndIsr, Proposal};
use kp_types::Refusal;

// The word of three nodes' record, at the start and after an election.
fn words() -> Result<[u64; 2], Refusal> {
    let initial = LeaderAndIsr::initial(3);
    Ok([pack(&initial), pack(&elected(&initial, 0)?)])
}

// The version after one more election of the record that has this word.
fn version_after(word: u64) -> Option<Result<u32, Refusal>> {
    let record = unpack(word)?;
    Some(elected(&record, 0).map(|changed| changed.version))
}

#[test]
fn a_record_is_one_word(rt: HostRuntime) {
    assert_eq!(rt; words(), Ok([0xf070_0000_0000_0000, 0x0070_0000_1000_0001]));
    assert_eq!(rt; version_after(0xf070_0000_0fff_fffe), Some(Ok(0x0fff_ffff)));
    assert_eq!(rt;
        version_after(0xf070_0000_0fff_ffff),
        Some(Err(Refusal::RecordFull))
    );
}

// The word of the record that stands after a proposal that node 1 leaves, by a leader that knows the record of the first word.
fn word_decided(known: u64, current: u64) -> Option<Result<u64, Refusal>> {
    let known = unpack(known)?;
    let isr = known.isr.without(1);
    let proposal = Proposal {
        from: 0,
        known,
        isr,
    };
    let decision = decided(&unpack(current)?, &proposal);
    Some(decision.map(|made| pack(&made.decided)))
}

// By the greatest version but one, and by the greatest.
#[test]
fn a_proposal_is_followed_by_the_record_that_it_names(rt: HostRuntime) {
    let (last, full) = (0xf070_0000_0fff_fffe, 0xf070_0000_0fff_ffff);
    assert_eq!(rt; word_decided(last, last), Some(Ok(0xf050_0000_0fff_ffff)));
    assert_eq!(rt; word_decided(last, full), Some(Ok(full)));
    assert_eq!(rt; word_decided(full, full), Some(Err(Refusal::RecordFull)));
}
