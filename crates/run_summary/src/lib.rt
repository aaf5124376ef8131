// The summary of a run: four lines of numbers.
//
// `write_summary` writes a tally with the words that asked for the run:
//
//     write_summary(seed, size, mode, lines, &tally, out)?;
//
// What is promised: what is written is the four lines as one text; after a fault of the sink a beginning of it was
// written. The call takes no memory. The tally of a run is what the definitions count from its entries' events and
// replies; that it is what stands in the state behind the last entry, where a run has it at hand, is a law of
// `summary_laws`.
//
// `specs/Tallies.antt` says what each event and its reply made and took away, and `specs/Summary.antt` has the text.
#![tactic(auto)]

mod summaries;
mod tallies;

pub use summaries::write_summary;
pub use tallies::{Objects, Tally};
