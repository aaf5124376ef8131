// Measures the component analysis over an edge list from standard input, by either of the two passes. With the word
// `time` it prints the numbers of components and pairs, and the milliseconds of the analysis alone; with the word
// `dump` a line `scc LIST` for each component and a line `xref A B` for each pair, in their order. With `second` behind
// it the second pass does it, and `component_pass` without. Other words are answered with what is wrong, the forms and
// an example, and status 1; a bad edge list with its first wrong line and what is wrong with it, and status 2; a graph
// of which too much would have to be numbered by status 3. All these stand on standard output. A stream that fails, and
// want of memory, are told on standard error, with status 4.
//
//     contract_tool dump < examples/crossed_cycle.graph
//     contract_tool dump second < examples/crossed_cycle.graph
//
// A run has one graph: the input is read to its end, its lists become a `DeadGraph`, `component_pass::contract` or
// `compare_pass::second_pass` makes the components of that, and they are printed. All of it is done by one thread, and
// nothing outlives the run. The passes share no code, so that two equal outputs for a graph of yours are two witnesses.
//
// What is promised is the passes' own, for every graph: the components and the cross-references are exactly those of
// the definition, the same for both. What this program adds, the reading of the list and the printing, is tested alone;
// the tests of the passes stand here too, since a crate with tests is proved twice.
#![tactic(auto)]

mod list;
#[cfg(test)]
mod tests;

use bridge_graph::DeadGraph;
use compare_pass::second_pass;
use component_pass::contract;
use list::{read_list, what};
use std::alloc::{AllocError, Global};
use std::env::{self, Args};
use std::io::{self, BufWriter, Write};
use std::process::ExitCode;
use std::time::Instant;
use xref_list::{Components, ListingFault};

// What is printed.
#[derive(Clone, Copy)]
enum OutputKind {
    Time,
    Dump,
}

// Which pass finds it.
#[derive(Clone, Copy)]
enum Pass {
    First,
    Second,
}

const USAGE: &'static str = "usage: contract_tool time|dump [second] < LIST
  time    prints the numbers of components and pairs, and the milliseconds of the analysis
  dump    prints a line for each component, with its bridge nodes, and for each pair
  second  takes the second pass in place of the first
  LIST    a line with the numbers of nodes and edges, a line b (bridge) or p (plain) for each node, and a line with two
          nodes, counted from 0, for each edge
example: printf '2 1\nb\nb\n0 1\n' | contract_tool dump";

// What was written of what was asked for.
const DONE: u8 = 0;

const USED_WRONGLY: u8 = 1;

const BAD_LIST: u8 = 2;

const TOO_MANY: u8 = 3;

const STOPPED: u8 = 4;

fn main(rt: HostRuntime) -> ExitCode {
    match run(&rt) {
        Ok(status) => ExitCode::from(status),
        Err(error) => {
            let _ = eprintln!(rt;
                "contract_tool: stopped, since a stream failed or there is no memory: {error}"
            );
            ExitCode::from(STOPPED)
        }
    }
}

// Does what the words ask for, and answers the exit status.
fn run(rt: &HostRuntime) -> io::Result<u8> {
    let (kind, pass) = match asked_for(env::args(rt)?) {
        Ok(asked) => asked,
        Err(what) => {
            println!(rt; "contract_tool: {what}\n{USAGE}")?;
            return Ok(USED_WRONGLY);
        }
    };
    let text = io::read_to_string(rt.alloc(), rt.reader())?;
    let graph = match read_list(rt.alloc(), text.as_str()) {
        Ok(graph) => graph,
        Err(fault) => {
            println!(rt; "line {}: {}", fault.line, what(fault.cause))?;
            return Ok(BAD_LIST);
        }
    };
    print_components(rt, &graph, kind, pass)
}

// Prints what a pass finds, and answers the exit status.
fn print_components(
    rt: &HostRuntime,
    graph: &DeadGraph,
    kind: OutputKind,
    pass: Pass,
) -> io::Result<u8> {
    let start = Instant::now(rt)?;
    let components = match components_of(rt.alloc(), graph, pass) {
        Ok(components) => components,
        Err(ListingFault::Memory) => return Err(io::Error::from(AllocError)),
        Err(ListingFault::TooMany) => {
            println!(rt; "too much to be numbered in 32 bits")?;
            return Ok(TOO_MANY);
        }
    };
    let spent = start.elapsed(rt)?;
    match kind {
        OutputKind::Dump => write_all(BufWriter::new(rt.alloc(), io::writer(rt))?, &components)?,
        OutputKind::Time => {
            let micros = u64::try_from(spent.as_micros()).unwrap_or(u64::MAX);
            println!(rt;
                "{} sccs {} xrefs {}.{:03} ms",
                components.len(),
                components.xrefs(),
                micros / 1000,
                micros % 1000
            )?;
        }
    }
    Ok(DONE)
}

// What the words ask for, or what is wrong with them.
fn asked_for(words: Args) -> Result<(OutputKind, Pass), &'static str> {
    let mut words = words.skip(1);
    let kind = match words.next().ok_or("there is no word")?.as_str() {
        "time" => OutputKind::Time,
        "dump" => OutputKind::Dump,
        _ => return Err("the first word is neither time nor dump"),
    };
    let Some(word) = words.next() else {
        return Ok((kind, Pass::First));
    };
    if word.as_str() != "second" {
        return Err("the second word isn't second");
    }
    if words.next().is_some() {
        return Err("there are more than two words");
    }
    Ok((kind, Pass::Second))
}

// The components of a graph, as the pass finds them.
fn components_of(alloc: Global, graph: &DeadGraph, pass: Pass) -> Result<Components, ListingFault> {
    match pass {
        Pass::First => contract(alloc, graph),
        Pass::Second => second_pass(alloc, graph),
    }
}

// Writes the components and the pairs, a line each.
fn write_all<W: Write + Drop>(mut out: W, components: &Components) -> io::Result<()> {
    for c in 0..components.len() {
        write!(out, "scc")?;
        for x in components.objs(c) {
            write!(out, " {x}")?;
        }
        writeln!(out, "")?;
    }
    for i in 0..components.xrefs() {
        let (source, destination) = components.xref(i);
        writeln!(out, "xref {source} {destination}")?;
    }
    out.flush()
}
