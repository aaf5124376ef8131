// The text of a sheet of pictures, in Graphviz's language DOT.
//
//     let text = dot_text(alloc, &title, &sheet)?;
//
// The nodes of each heap stand in a frame of their own, the dead part in one within. Names of nodes are those of the
// report: m1, p1, h1. A box has the words of a script line that names its slot: "m1 a" is the variable a of the thread
// m1, g0 a static of the managed heap, s0 one of the peer heap, G0 a global name.
//
// What came is green, and what went vermilion and dotted. A box has no colour of its own: it is its arrow that came or
// went.
//
// What is promised: the text is `sheet_text` of `specs/Texts.antt`, a function of the title and the sheet. It has the
// nodes and arrows of each picture in that picture's order.
#![tactic(auto)]

mod arrows;
mod changes;
mod pieces;
mod spots;
mod texts;

pub use texts::dot_text;
