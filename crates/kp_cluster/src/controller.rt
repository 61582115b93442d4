//! The controller's steps.

use crate::gate::Gate;
use crate::worker::{Done, send_on};
use kp_board::{Board, BoardName, Pass};
use kp_transport::{Carry, Parcel};
use kp_types::{NodeId, Refusal};

/// Handles one parcel of the controller's place, which is the number of nodes: receives it, calls the gate, has the board decide on
/// the proposal that it is, by `Board::decide` with this pass, sends the decision to the proposal's sender, and calls the gate
/// again. It takes no lock, and a turn does nothing. A refusal, of the board or of the carrier, ends this step alone, and the
/// message is gone. (Own rule; KIP-497.)
pub fn controller_step<B: BoardName, C: Carry<Parcel<B>>, G: Gate>(
    place: NodeId,
    board: &Board<B>,
    pass: &mut Pass<B>,
    carrier: &C,
    gate: &G,
) -> Result<Done, Refusal> {
    let message = match carrier.receive(place) {
        Some(Parcel::Message(message)) => message,
        Some(Parcel::Turn) => return Ok(Done::Stepped),
        Some(Parcel::Stop) => return Ok(Done::Ended),
        None => return Ok(Done::Idle),
    };
    gate.before(place);
    let done = match board.decide(pass, message) {
        Ok(decision) => send_on(carrier, place, Some(decision)),
        Err(refusal) => Err(refusal),
    };
    gate.after(place);
    done
}
