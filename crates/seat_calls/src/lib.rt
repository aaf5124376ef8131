// What a side does with its seat under its lock: how a caller's lines come and go, how a side draws by the seat, and
// how the words of the gate, of the cells and of the pins follow the entries that a cycle, a `weak` or a `take` makes.
//
// Each call is for whoever has the side and its seat in hand. It makes at most one entry, takes no memory and waits for
// nobody. `specs/` read alone tells what is true: Passing first, then Paying and Gating.
#![tactic(auto)]

mod cells;
mod gates;
mod reading;
mod seats;

pub use cells::{Lives, append_paid, pay_cells};
pub use gates::{close_and_scan, own_pin, settle_ended, settle_opened, settle_taken};
pub use reading::read_locked;
pub use seats::{SeatDrawing, give_back, lend};
