//! Where in the list of aborted transactions the search for a batch begins.

ghost use Rattle.std.specs.Prelude.{◌≡◌, ◌≤◌, length};
ghost use Rattle.kp_visible.specs.Near.{back_from, on_from, place_from};

use kp_txns::AbortedTransaction;
use kp_types::Offset;

// In a list that rises by marker, the first transaction that ends above the offset, from any place. O(1), and the
// transactions that lie between the two places.
pub(crate) fn place_near(aborted: &[AbortedTransaction], place: usize, offset: Offset) -> usize
    requires { place ≤ length aborted.now }
    ensures same { result ≡ place_from aborted.now offset place }
    ensures within { result ≤ length aborted.now }
{
    let back = go_back(aborted, place, offset);
    go_on(aborted, back, offset)
}

// Back from the place over the transactions that end above the offset.
fn go_back(aborted: &[AbortedTransaction], from: usize, offset: Offset) -> usize
    requires { from ≤ length aborted.now }
    ensures same { result ≡ back_from aborted.now offset from }
    ensures within { result ≤ length aborted.now }
{
    let mut place = from;
    while place > 0 {
        let ended = &aborted[place - 1];
        if ended.marker <= offset {
            return place;
        }
        place -= 1;
    }
    place
}

// On from the place over the transactions that ended at the offset or below it.
fn go_on(aborted: &[AbortedTransaction], from: usize, offset: Offset) -> usize
    requires { from ≤ length aborted.now }
    ensures same { result ≡ on_from aborted.now offset from }
    ensures within { result ≤ length aborted.now }
{
    let mut place = from;
    while place < aborted.len() {
        let ended = &aborted[place];
        if ended.marker > offset {
            return place;
        }
        place += 1;
    }
    place
}
