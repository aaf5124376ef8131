// Bytes that come from somewhere and go somewhere, and texts that are put together on the way.
//
// A line with two numbers:
//
//     let mut line = Line::new();
//     line.text(b"swept");
//     line.decimal(peers);
//     line.decimal(handles);
//     line.text(b"\n");
//     write_text(out, line.bytes())?;
//
// A `Source` gives bytes in whatever pieces, and a `Sink` takes them so. Each counts its faults, and answers `Failed`
// only where the count rose. `ByteSource`, `PlainSource`, `ByteSink` and `CountSink` are such in memory; a program has
// its own over standard input and output.
//
// A text for a sink is put together in a `Line`, a fixed buffer: `Line::new`, then `text`, `number`, `word` and the
// like, each of which asks for the room that it needs. Another crate puts its own words together of these. A long text
// is put together piece by piece: `make_room` before each gives the sink what was put together, where there is little
// room left, and `flush` at the end the rest. Numbers that are mostly counted up come from a `Count`, which keeps the
// decimal text of the last one; a word with such a number behind it is a `Part`, which is put as one block with the
// last two digits behind it. `write_text` writes a text that is at hand.
//
// `read_up_to` takes all that a source has, but no more than one byte past a limit.
//
// Who runs meanwhile: a source is read and a sink written by one thread, and a line is one thread's own.
//
// What is promised: a text stands at the sink as a whole, in whatever portions it takes them, or the sink's count of
// faults rose, and a beginning of the text stands there. Where a source or a sink tells its bytes the clauses say which
// they are. A line takes no memory from the heap.
//
// `specs/Streams.antt` says what a source and a sink are seen to do, `specs/Reading.antt` what was taken of a source,
// `specs/Drafts.antt` what a line holds and has room for, and `specs/Sending.antt` what of a text that is written piece
// by piece a sink has.
#![tactic(auto)]

mod counts;
mod drafts;
mod memory;
mod parts;
mod reading;
mod streams;

pub use counts::Count;
pub use drafts::{Line, pair_of};
pub use memory::{ByteSink, ByteSource, CountSink, PlainSource};
pub use parts::{Part, put_number};
pub use reading::{ReadError, read_up_to};
pub use streams::{Failed, Sink, Source, write_text};
