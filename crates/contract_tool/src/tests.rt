// Worked examples, as they are printed.

use crate::list::{Cause, read_list};
use crate::write_all;
use compare_pass::second_pass;
use component_pass::contract;
use std::alloc::Global;
use std::io;
use std::test::Fail;
use xref_list::{Components, End};

// An edge list, and the components and cross-references in it, line by line.
type Case = (&'static str, &'static str);

// Three components lead to a plain node, and it leads to twenty.
const THREE_TO_TWENTY: &str =
    "24 23\nb\nb\nb\np\nb\nb\nb\nb\nb\nb\nb\nb\nb\nb\nb\nb\nb\nb\nb\nb\nb\nb\nb\nb\n0 3\n1 3\n2 3\n3 4\n3 5\n3 6\n3 7\n3 8\n3 9\n3 10\n3 11\n3 12\n3 13\n3 14\n3 15\n3 16\n3 17\n3 18\n3 19\n3 20\n3 21\n3 22\n3 23\n";

const CASES: [Case; 11] = [
    // a walk that passes a bridge component is no cross-reference
    (
        "5 5\nb\np\np\nb\nb\n0 1\n0 2\n1 3\n2 3\n3 4\n",
        "scc 0\nscc 3\nscc 4\nxref 0 1\nxref 1 2\n",
    ),
    // cycles of three nodes, one node alone, and nothing
    ("3 3\nb\nb\nb\n0 1\n1 2\n2 0\n", "scc 0 1 2\n"),
    ("3 3\nb\np\nb\n0 1\n1 2\n2 0\n", "scc 0 2\n"),
    ("1 0\nb\n", "scc 0\n"),
    ("0 0\n", ""),
    // references leave a cycle from several of its objects: no walk leads from node 0 to node 1
    (
        "4 4\nb\nb\nb\nb\n2 0\n2 3\n3 1\n3 2\n",
        "scc 0\nscc 1\nscc 2 3\nxref 2 0\nxref 2 1\n",
    ),
    // a cycle of plain nodes is passed through, and one that has a bridge node is not
    (
        "6 8\nb\np\np\nb\np\nb\n0 1\n1 2\n2 1\n2 4\n4 3\n3 4\n4 5\n0 0\n",
        "scc 0\nscc 3\nscc 5\nxref 0 1\nxref 1 2\n",
    ),
    // plain nodes that lead to the same components: along a chain, and where two ways meet
    (
        "11 14\nb\nb\nb\nb\np\np\np\np\np\np\np\n0 4\n4 5\n1 5\n5 6\n6 2\n6 7\n7 3\n8 2\n8 3\n9 3\n9 2\n10 8\n10 9\n1 10\n",
        "scc 0\nscc 1\nscc 2\nscc 3\nxref 0 2\nxref 0 3\nxref 1 2\nxref 1 3\n",
    ),
    // a class where three lead in and twenty are led to is reported: three times twenty is 60
    (
        THREE_TO_TWENTY,
        "scc 0\nscc 1\nscc 2\nscc 4\nscc 5\nscc 6\nscc 7\nscc 8\nscc 9\nscc 10\nscc 11\nscc 12\nscc 13\nscc 14\nscc 15\nscc 16\nscc 17\nscc 18\nscc 19\nscc 20\nscc 21\nscc 22\nscc 23\nscc\nxref 0 23\nxref 1 23\nxref 2 23\nxref 23 3\nxref 23 4\nxref 23 5\nxref 23 6\nxref 23 7\nxref 23 8\nxref 23 9\nxref 23 10\nxref 23 11\nxref 23 12\nxref 23 13\nxref 23 14\nxref 23 15\nxref 23 16\nxref 23 17\nxref 23 18\nxref 23 19\nxref 23 20\nxref 23 21\nxref 23 22\n",
    ),
    // where it leads to nineteen it isn't: each of the three refers to each of the nineteen
    (
        "23 22\nb\nb\nb\np\nb\nb\nb\nb\nb\nb\nb\nb\nb\nb\nb\nb\nb\nb\nb\nb\nb\nb\nb\n0 3\n1 3\n2 3\n3 4\n3 5\n3 6\n3 7\n3 8\n3 9\n3 10\n3 11\n3 12\n3 13\n3 14\n3 15\n3 16\n3 17\n3 18\n3 19\n3 20\n3 21\n3 22\n",
        "scc 0\nscc 1\nscc 2\nscc 4\nscc 5\nscc 6\nscc 7\nscc 8\nscc 9\nscc 10\nscc 11\nscc 12\nscc 13\nscc 14\nscc 15\nscc 16\nscc 17\nscc 18\nscc 19\nscc 20\nscc 21\nscc 22\nxref 0 3\nxref 0 4\nxref 0 5\nxref 0 6\nxref 0 7\nxref 0 8\nxref 0 9\nxref 0 10\nxref 0 11\nxref 0 12\nxref 0 13\nxref 0 14\nxref 0 15\nxref 0 16\nxref 0 17\nxref 0 18\nxref 0 19\nxref 0 20\nxref 0 21\nxref 1 3\nxref 1 4\nxref 1 5\nxref 1 6\nxref 1 7\nxref 1 8\nxref 1 9\nxref 1 10\nxref 1 11\nxref 1 12\nxref 1 13\nxref 1 14\nxref 1 15\nxref 1 16\nxref 1 17\nxref 1 18\nxref 1 19\nxref 1 20\nxref 1 21\nxref 2 3\nxref 2 4\nxref 2 5\nxref 2 6\nxref 2 7\nxref 2 8\nxref 2 9\nxref 2 10\nxref 2 11\nxref 2 12\nxref 2 13\nxref 2 14\nxref 2 15\nxref 2 16\nxref 2 17\nxref 2 18\nxref 2 19\nxref 2 20\nxref 2 21\n",
    ),
    // nor is one that only two lead into, however many it leads to
    (
        "33 32\nb\nb\np\nb\nb\nb\nb\nb\nb\nb\nb\nb\nb\nb\nb\nb\nb\nb\nb\nb\nb\nb\nb\nb\nb\nb\nb\nb\nb\nb\nb\nb\nb\n0 2\n1 2\n2 3\n2 4\n2 5\n2 6\n2 7\n2 8\n2 9\n2 10\n2 11\n2 12\n2 13\n2 14\n2 15\n2 16\n2 17\n2 18\n2 19\n2 20\n2 21\n2 22\n2 23\n2 24\n2 25\n2 26\n2 27\n2 28\n2 29\n2 30\n2 31\n2 32\n",
        "scc 0\nscc 1\nscc 3\nscc 4\nscc 5\nscc 6\nscc 7\nscc 8\nscc 9\nscc 10\nscc 11\nscc 12\nscc 13\nscc 14\nscc 15\nscc 16\nscc 17\nscc 18\nscc 19\nscc 20\nscc 21\nscc 22\nscc 23\nscc 24\nscc 25\nscc 26\nscc 27\nscc 28\nscc 29\nscc 30\nscc 31\nscc 32\nxref 0 2\nxref 0 3\nxref 0 4\nxref 0 5\nxref 0 6\nxref 0 7\nxref 0 8\nxref 0 9\nxref 0 10\nxref 0 11\nxref 0 12\nxref 0 13\nxref 0 14\nxref 0 15\nxref 0 16\nxref 0 17\nxref 0 18\nxref 0 19\nxref 0 20\nxref 0 21\nxref 0 22\nxref 0 23\nxref 0 24\nxref 0 25\nxref 0 26\nxref 0 27\nxref 0 28\nxref 0 29\nxref 0 30\nxref 0 31\nxref 1 2\nxref 1 3\nxref 1 4\nxref 1 5\nxref 1 6\nxref 1 7\nxref 1 8\nxref 1 9\nxref 1 10\nxref 1 11\nxref 1 12\nxref 1 13\nxref 1 14\nxref 1 15\nxref 1 16\nxref 1 17\nxref 1 18\nxref 1 19\nxref 1 20\nxref 1 21\nxref 1 22\nxref 1 23\nxref 1 24\nxref 1 25\nxref 1 26\nxref 1 27\nxref 1 28\nxref 1 29\nxref 1 30\nxref 1 31\n",
    ),
];

// Components and cross-references as they are printed.
fn printed(alloc: Global, found: &Components) -> io::Result<Vec<u8>> {
    let mut out = Vec::new(alloc);
    write_all(&mut out, found)?;
    Ok(out)
}

#[test]
fn worked_graphs(rt: HostRuntime) -> Result<(), Fail> {
    let alloc = rt.alloc();
    for (list, wanted) in &CASES {
        let graph = read_list(alloc, list)?;
        let found = printed(alloc, &contract(alloc, &graph)?)?;
        assert!(rt; found.as_slice() == wanted.as_bytes());
        let found = printed(alloc, &second_pass(alloc, &graph)?)?;
        assert!(rt; found.as_slice() == wanted.as_bytes());
    }
    Ok(())
}

#[test]
fn a_heavy_class_has_a_temporary(rt: HostRuntime) -> Result<(), Fail> {
    let alloc = rt.alloc();
    let graph = read_list(alloc, THREE_TO_TWENTY)?;
    let found = contract(alloc, &graph)?;
    assert_eq!(rt; found.refs(), 23);
    let (from, to) = found.mirror_edge(0);
    assert!(rt; from == End::Node(0));
    assert!(rt; to == End::Temp(23));
    Ok(())
}

// Edge lists with a mistake: its line, and what it is.
const MISTAKES: [(&'static str, u64, Cause); 9] = [
    ("", 1, Cause::End),
    ("2\n", 1, Cause::Counts),
    ("1 0\nb", 0, Cause::End),
    ("2 1\nb\n", 3, Cause::End),
    ("2 1\nb\nx\n0 1\n", 3, Cause::Kind),
    ("2 1\nb\nb\n", 4, Cause::End),
    ("2 1\nb\nb\n0,1\n", 4, Cause::Edge),
    ("2 1\nb\nb\n0 2\n", 4, Cause::Node),
    ("2 1\nb\nb\n0 1\n1 0\n", 5, Cause::More),
];

#[test]
fn a_mistake_has_its_line(rt: HostRuntime) -> Result<(), Fail> {
    for (list, line, cause) in &MISTAKES {
        // (no list is wrong on line 0: that one is right)
        let found = match read_list(rt.alloc(), list) {
            Ok(_) => 0,
            Err(fault) => {
                assert!(rt; fault.cause == *cause);
                fault.line
            }
        };
        assert_eq!(rt; found, *line);
    }
    Ok(())
}
