// Scripts: what the lines of a text mean, and which text a script has.
//
//     match read_script(alloc, src) {
//         Ok(script) => ..,
//         Err(ScriptError::Refused(fault)) => write_refusal(fault, out)?,
//         Err(ScriptError::ReadFault | ScriptError::OutOfMemory) => ..,
//     }
//
// In the order in which a program calls it:
//
// 1. `read_script` reads a source to its end, or to one byte past the limit of a script, and answers the script
//    whose text it read. It lets the bytes go as their lines are read: only those of a line that isn't whole are
//    held. Where the bytes are the text of no script it names the first faulty line and its first cause, and nothing
//    else is refused. `parse` does the same with bytes that are at hand, `script_text` prints a script back, and
//    `write_refusal` writes the line that names a fault.
// 2. `Script::line` gives the lines, counted from 1, to whoever runs them: each is a thread and an `Act` of
//    `joint_model`, and lawful there. A worker calls `Turnstile::pass` before each.
// 3. `take_act`, `var` and their like read such words back, from the `Words` of a line (`text_words`).
// 4. `add_act`, `add_var` and their like put the words of a line behind a `Line` of `byte_streams`, for a report that
//    has the same words.
//
// A `Script` is made by `parse` or of lines that are one, never changes afterwards, and is dropped by the program when
// it ends.
//
// Who runs meanwhile: a source is read by one thread. A `Script` is then only read, by all threads of a run at once.
//
// What is promised: a script is answered exactly where the bytes are a script's text, and the fault that is named is
// the first. `texts_tell_scripts` proves that a text is of one script, that a script has at most two texts, that a line
// of a script has no cause, and that bytes have one first faulty line with one first cause.
//
// `specs/Scripts.antt` says which bytes are a script's text and which line is the first faulty one, by the texts that
// `specs/Words.antt` gives lines, and not by how they are read. `specs/Grammar.antt` has the table of all operations,
// `specs/Faults.antt` the nine causes.
#![tactic(auto)]

mod acts;
mod drafts;
mod faults;
mod grammar;
mod laws;
mod lines;
mod names;
mod operands;
mod printing;
mod reading;
mod refusals;
mod repeats;
mod scripts;
mod turnstiles;
mod words;

pub use acts::{add_act, add_pass, add_with_number, add_with_var};
pub use faults::{Cause, ScriptError, ScriptFault};
pub use laws::{lines_fit_table, texts_tell_scripts};
pub use lines::take_act;
pub use names::{add_kind, add_peer_static, add_phase_word, add_sort, add_var};
pub use printing::script_text;
pub use reading::read_script;
pub use refusals::write_refusal;
pub use scripts::{MOST_LINES, Script, parse};
pub use turnstiles::{FreeTurn, Turnstile};
pub use words::{peer_static, thread, var};
