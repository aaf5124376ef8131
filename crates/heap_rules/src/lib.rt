// What both heaps go by, whatever they are kept in: how an operation answers, what numbers name objects, and what holds
// of every heap that operations have made.
//
// The sides hold a `row_heap`, and the checker of histories plain lists of its own. The two share no code that keeps
// objects, so that the checker doesn't stand on what it checks; both promise the operations of the joint model's
// `Heap`, in the words of this crate. A heap's owner makes its reply of a [`Done`], in which it names objects in its
// own way, and lists freed objects by its own type, which is a [`Number`].
//
// `specs/Tidy.antt` says that nothing names a freed object and which objects may be freed, `specs/Flags.antt` how flags
// tell the live ones, and `specs/Done.antt` what an answer means. What is promised here is the number of an object in
// its owner's type, and no more.
#![tactic(auto)]

mod done;
mod numbers;

pub use done::Done;
pub use numbers::Number;
