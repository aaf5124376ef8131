// The lines of a cycle, which a sink gets piece by piece.

ghost use Rattle.std.specs.Prelude.{◌≡◌, ◌+◌, ◌<◌, ◌≤◌, ◌∷◌, [], All, OnOk, length, map};
ghost use Rattle.byte_streams.specs.Streams.{Writes};
ghost use Rattle.byte_streams.specs.Sending.{Sends};
ghost use Rattle.byte_streams.specs.Spaced.{after_spaces};
ghost use Rattle.history_report.specs.Lists.{lettered, listed};
ghost use Rattle.history_report.specs.Report.{end_text};
ghost use Rattle.graph_listing.specs.Listing.{all_comps, component_text, components_text, cycle_lines, head_text};
ghost use Rattle.graph_listing.specs.Listing.{reference_text, references_text};
ghost use Rattle.graph_listing.specs.Numbers.{AreOfNodes, listed_of, number_in};

use bridge_graph::DeadGraph;
use byte_streams::{Failed, Line, Sink, write_text};
use joint_machine::Cycle;
use xref_list::Components;

// Writes the managed numbers of nodes, each with a space and its letter before it.
fn write_numbers<K: Sink>(
    graph: &DeadGraph,
    objs: &[u32],
    line: &mut Line,
    out: &mut K,
) -> Result<(), Failed>
    requires nodes { All (λ x. x < length graph.now.nodes) objs.now }
    ensures { Sends (K.held out.old) (K.held out.new) line.old.text line.new.text (K.faults out.old)
        (K.faults out.new) result (after_spaces (lettered 109 (map (number_in graph.now.nodes) objs.now))) }
{
    for x in objs {
        line.make_room(out)?;
        line.lettered(b'm', graph.number(*x).0 as u64);
    }
    Ok(())
}

// Writes the managed numbers of nodes, or `-` where there is none, with a space before each word.
fn write_list<K: Sink>(
    graph: &DeadGraph,
    objs: &[u32],
    line: &mut Line,
    out: &mut K,
) -> Result<(), Failed>
    requires nodes { All (λ x. x < length graph.now.nodes) objs.now }
    requires room { 2 ≤ line.old.room }
    ensures { Sends (K.held out.old) (K.held out.new) line.old.text line.new.text (K.faults out.old)
        (K.faults out.new) result (after_spaces (listed 109 (map (number_in graph.now.nodes) objs.now))) }
{
    if objs.is_empty() {
        line.word(*b"-");
        return Ok(());
    }
    write_numbers(graph, objs, line, out)
}

// Writes a component's line up to its members.
fn write_head<K: Sink>(c: u32, line: &mut Line, out: &mut K) -> Result<(), Failed>
    ensures sent { Sends (K.held out.old) (K.held out.new) line.old.text line.new.text
        (K.faults out.old) (K.faults out.new) result (head_text c) }
    ensures room { OnOk result (2 ≤ line.new.room) }
{
    line.make_room(out)?;
    line.text(b"scc");
    line.decimal(c as u64);
    Ok(())
}

// Writes the end of a line.
fn write_newline<K: Sink>(line: &mut Line, out: &mut K) -> Result<(), Failed>
    ensures { Sends (K.held out.old) (K.held out.new) line.old.text line.new.text
        (K.faults out.old) (K.faults out.new) result (10 ∷ []) }
{
    line.make_room(out)?;
    line.text(b"\n");
    Ok(())
}

// Writes the line of a component.
fn write_component<K: Sink>(
    graph: &DeadGraph,
    c: u32,
    objs: &[u32],
    line: &mut Line,
    out: &mut K,
) -> Result<(), Failed>
    requires nodes { All (λ x. x < length graph.now.nodes) objs.now }
    ensures { Sends (K.held out.old) (K.held out.new) line.old.text line.new.text (K.faults out.old)
        (K.faults out.new) result (component_text c (map (number_in graph.now.nodes) objs.now)) }
{
    write_head(c, line, out)?;
    write_list(graph, objs, line, out)?;
    write_newline(line, out)
}

// Writes the lines of all components and heavy classes.
fn write_components<K: Sink>(
    graph: &DeadGraph,
    comps: &Components,
    line: &mut Line,
    out: &mut K,
) -> Result<(), Failed>
    requires nodes { AreOfNodes graph.now.nodes comps.now.comps }
    ensures { Sends (K.held out.old) (K.held out.new) line.old.text line.new.text (K.faults out.old)
        (K.faults out.new) result (components_text 0 (all_comps (listed_of 0 graph.now comps.now))) }
{
    for c in 0..comps.len() {
        write_component(graph, c, comps.objs(c), line, out)?;
    }
    Ok(())
}

// Writes the line of a cross-reference.
fn write_reference<K: Sink>(pair: (u32, u32), line: &mut Line, out: &mut K) -> Result<(), Failed>
    ensures { Sends (K.held out.old) (K.held out.new) line.old.text line.new.text
        (K.faults out.old) (K.faults out.new) result (reference_text pair) }
{
    line.make_room(out)?;
    line.text(b"xref");
    line.decimal(pair.0 as u64);
    line.decimal(pair.1 as u64);
    line.text(b"\n");
    Ok(())
}

// Writes the lines of all cross-references.
fn write_references<K: Sink>(comps: &Components, line: &mut Line, out: &mut K) -> Result<(), Failed>
    ensures { Sends (K.held out.old) (K.held out.new) line.old.text line.new.text
        (K.faults out.old) (K.faults out.new) result (references_text comps.now.pairs) }
{
    for i in 0..comps.xrefs() {
        write_reference(comps.xref(i), line, out)?;
    }
    Ok(())
}

/// Writes the lines of a cycle: its number, the components and heavy classes that the graph of its dead part has, and
/// the cross-references between these. The sink gets them in pieces of at most 16 KiB. It takes no memory. [`Failed`]
/// only where the sink's count of faults rose, and then a beginning of the lines was written.
pub fn write_listing<K: Sink>(
    graph: &DeadGraph,
    comps: &Components,
    cycle: Cycle,
    out: &mut K,
) -> Result<(), Failed>
    requires nodes { AreOfNodes graph.now.nodes comps.now.comps }
    ensures { Writes (K.held out.old) (K.held out.new) (K.faults out.old)
        (K.faults out.new) result (cycle_lines (listed_of cycle.0 graph.now comps.now)) }
{
    let mut line = Line::new();
    line.text(b"cycle ");
    line.number(cycle.0 as u64);
    line.text(b"\n");
    write_components(graph, comps, &mut line, out)?;
    write_references(comps, &mut line, out)?;
    line.flush(out)
}

/// Writes the last line of a listing of so many cycles. It takes no memory. [`Failed`] only where the sink's count of
/// faults rose, and then a beginning of the line was written.
pub fn write_end<K: Sink>(cycles: u64, out: &mut K) -> Result<(), Failed>
    ensures { Writes (K.held out.old) (K.held out.new) (K.faults out.old) (K.faults out.new) result (end_text cycles) }
{
    let mut line = Line::new();
    line.text(b"end ");
    line.number(cycles);
    line.text(b"\n");
    write_text(out, line.bytes())
}
