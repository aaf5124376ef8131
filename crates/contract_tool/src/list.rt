// An edge list: a line `N M`, then N lines `b` or `p`, one for each node, and then M lines `u v`, one for
// each edge.

ghost use Rattle.std.specs.Prelude.{◌≡◌};

use bridge_graph::{DeadGraph, GraphBuilder};
use joint_machine::{HNum, MNum};
use std::alloc::{AllocError, Global};
use std::str::Lines;

/// What is wrong with a line of an edge list.
#[derive(Clone, Copy, PartialEq, Eq, Debug)]
pub enum Cause {
    /// The first line is not two numbers.
    Counts,
    /// A node's line is neither `b` nor `p`.
    Kind,
    /// An edge's line is not two numbers.
    Edge,
    /// An edge names no node.
    Node,
    /// There are more than 4,294,967,294 nodes.
    Nodes,
    /// The list ends before this line.
    End,
    /// The line stands behind the last edge.
    More,
    /// There is no memory for what the line says.
    Memory,
}

impl From<AllocError> for Cause {
    ghost use Rattle.contract_tool.specs.declared.list.Cause.TheVariants as cause;

    ghost from_gives = { λ _ e. e ≡ cause.Memory };

    fn from(_error: AllocError) -> Cause {
        Cause::Memory
    }
}

/// The first wrong line of an edge list, counted from 1, and what is wrong with it.
#[derive(Clone, Copy, PartialEq, Eq, Debug)]
pub struct ListFault {
    pub line: u64,
    pub cause: Cause,
}

/// What is wrong with a line, in words.
pub fn what(cause: Cause) -> &'static str {
    match cause {
        Cause::Counts => "this is not the number of nodes, a space and the number of edges",
        Cause::Kind => "this is a node's line, and neither b nor p",
        Cause::Edge => "this is an edge's line, and not two numbers with a space between",
        Cause::Node => "this edge names no node: they are counted from 0",
        Cause::Nodes => "there are more than 4294967294 nodes",
        Cause::End => "the list ends before this line, and the first line promises it",
        Cause::More => "this stands behind the last edge that the first line promises",
        Cause::Memory => "there is no memory for this",
    }
}

// The lines of a text, and how many were asked for.
#[derive(Drop)]
struct CountedLines<'a> {
    lines: Lines<'a>,
    asked: u64,
}

impl<'a> CountedLines<'a> {
    // The next line, if there is one.
    fn next(&mut self) -> Option<&'a str> {
        self.asked = self.asked.saturating_add(1);
        self.lines.next()
    }
}

/// Reads an edge list. Answers its first wrong line.
pub fn read_list(alloc: Global, text: &str) -> Result<DeadGraph, ListFault> {
    let mut lines = CountedLines {
        lines: text.lines(),
        asked: 0,
    };
    let read = read_graph(alloc, &mut lines);
    let line = lines.asked;
    match read {
        Ok(graph) => Ok(graph),
        Err(cause) => Err(ListFault { line, cause }),
    }
}

// Reads all lines. What is wrong is so with the line that was asked for last.
fn read_graph(alloc: Global, lines: &mut CountedLines) -> Result<DeadGraph, Cause> {
    let (nodes, edges) = pair(lines.next().ok_or(Cause::End)?).ok_or(Cause::Counts)?;
    let mut builder = GraphBuilder::new(alloc);
    read_nodes(&mut builder, lines, nodes)?;
    read_edges(&mut builder, lines, edges)?;
    if lines.next().is_some() {
        return Err(Cause::More);
    }
    Ok(builder.finish())
}

// Reads the nodes' lines.
fn read_nodes(
    builder: &mut GraphBuilder,
    lines: &mut CountedLines,
    nodes: u32,
) -> Result<(), Cause> {
    for i in 0..nodes {
        let handle = match lines.next().ok_or(Cause::End)? {
            "b" => true,
            "p" => false,
            _ => return Err(Cause::Kind),
        };
        if i == u32::MAX || !builder.next_is(MNum(i + 1)) {
            return Err(Cause::Nodes);
        }
        builder.node(
            MNum(i + 1),
            if handle { Some(HNum(i + 1)) } else { None },
            false,
        )?;
    }
    Ok(())
}

// Reads the edges' lines.
fn read_edges(
    builder: &mut GraphBuilder,
    lines: &mut CountedLines,
    edges: u32,
) -> Result<(), Cause> {
    for _ in 0..edges {
        let (from, to) = pair(lines.next().ok_or(Cause::End)?).ok_or(Cause::Edge)?;
        if !builder.may_lead(from, to) {
            return Err(Cause::Node);
        }
        builder.edge(from, to)?;
    }
    Ok(())
}

// The two numbers of a line.
fn pair(line: &str) -> Option<(u32, u32)> {
    let (left, right) = line.split_once(' ')?;
    Some((left.parse().ok()?, right.parse().ok()?))
}
