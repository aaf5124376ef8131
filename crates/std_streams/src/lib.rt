// Standard input and standard output, or any other reader and writer, as a source and a sink of `byte_streams`, and the
// arguments of a process as words: the trusted edge of a program.
//
//     let words = words_of(rt.alloc(), std::env::args(&rt))?;
//     top_call(&words, &mut StdSource::new(rt.reader()), &mut StdSink::new(std::io::writer(&rt)))
//
// Each stream counts its errors. What is promised: each tells what its stream tells, so over a stream in memory every
// byte is pinned; the standard streams themselves tell none. The words are those after the program's name
// (`specs/Words.antt`).
#![tactic(auto)]

mod streams;
mod words;

pub use streams::{StdSink, StdSource};
pub use words::words_of;
