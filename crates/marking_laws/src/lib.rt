// Laws of a peer marking: what the marks in the rows of the peer heap have to do with the definition of the peer list.
//
// The definition marks over the edges that stood at the begin: roots are the peers in slots and under strong handles
// then, and each peer that was brought back since. The program keeps no copy of these edges. It marks at the begin over
// the edges of that moment, gives each new peer a mark, and brings a peer back by marking over the edges *of now*.
// `AreMarksExact` says what the marks then keep: a peer that was unfreed at the begin has a mark exactly where the
// definition has it as marked, and a new one has a mark. Each law takes one kind of event, and says that the marks stay
// so.
//
// Why no barrier is needed while the marking is done whole at the begin: what a slot or a strong handle names is new or
// marked. A write needs its source in a slot, and stores what sits in a slot. So only marked peers and new ones are
// ever written or stored, and a peer without a mark has all the fields of the begin. Each edge of the begin therefore
// leads to a marked peer, or still stands and begins at an unmarked one. A walk from a peer that is brought back goes
// through unmarked peers, over edges of the begin, up to the first marked one, whose closure is marked already.
//
// A caller begins with `begin_makes_marks_exact`, goes on with the law of each event, finds its marks shut under the
// edges of now by `marks_are_shut`, which the marking loop asks for, and sweeps by `sweep_is_exact` and
// `sweep_is_safe`.
//
// No value is made and nothing runs here. Between a begin and its sweep the events of all threads come one after
// another, each under the peer lock, and what is promised is that the sweep then frees exactly what the definition's
// does: no peer that is reached, and each that was unreached at the begin and wasn't brought back.
#![tactic(auto)]

mod events;
mod slices;
mod sweeps;

pub use events::{
    begin_makes_marks_exact, bringing_back_keeps_marks, clearing_keeps_marks, new_peers_keep_marks,
    other_events_keep_marks, standing_keeps_marks, writes_keep_marks,
};
pub use slices::{slices_count, slices_end, slices_go_on};
pub use sweeps::{marks_are_shut, sweep_is_exact, sweep_is_safe};
