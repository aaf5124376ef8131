// The top call by worked examples: pictures, and each status. What is compared stands in a table, which one loop reads.

use byte_streams::{ByteSink, ByteSource, Source};
use picture_program::picture_main;
use std::alloc::{AllocError, Global};
use std::test::Fail;

// A bridge object that its variable holds, and then doesn't.
pub(crate) const REPORT: &[u8] = b"0 m1.1 make user 0 = p1 h1
1 m1.1 adopt a bridge 1 p1 h1 = m1 @0
2 m1.2 drop a = ok
end 3
";

// The picture after entry 1.
pub(crate) const HELD: &[u8] = b"digraph heaps {
  label=\"1 m1.1 adopt a bridge 1 p1 h1 = m1 @0\";
  labelloc=t;
  rankdir=LR;
  subgraph cluster_managed {
    label=\"managed heap\";
    m1 [label=\"m1 bridge\"];
  }
  subgraph cluster_peers {
    label=\"peer heap\";
    p1 [label=\"p1 user\"];
  }
  \"m1\" -> \"p1\" [dir=both,penwidth=2,label=\"h1\"];
  \"m1 a\" [shape=box];
  \"m1 a\" -> \"m1\" [penwidth=1];
}
";

// From entry 0 to entry 1.
const ADOPTED: &[u8] = b"digraph heaps {
  label=\"0 m1.1 make user 0 = p1 h1
1 m1.1 adopt a bridge 1 p1 h1 = m1 @0\";
  labelloc=t;
  rankdir=LR;
  subgraph cluster_managed {
    label=\"managed heap\";
    m1 [label=\"m1 bridge\",color=\"#009e73\",fontcolor=\"#009e73\"];
  }
  subgraph cluster_peers {
    label=\"peer heap\";
    p1 [label=\"p1 user\"];
  }
  \"m1\" -> \"p1\" [dir=both,penwidth=2,label=\"h1\",color=\"#009e73\",fontcolor=\"#009e73\"];
  \"m1 a\" [shape=box];
  \"m1 a\" -> \"m1\" [penwidth=1,color=\"#009e73\",fontcolor=\"#009e73\"];
  \"h1\" [shape=box];
  \"h1\" -> \"p1\" [penwidth=2,color=\"#d55e00\",fontcolor=\"#d55e00\",style=dotted];
}
";

// From entry 1 to entry 2, one arrow around the peer.
const DROPPED: &[u8] = b"digraph heaps {
  label=\"1 m1.1 adopt a bridge 1 p1 h1 = m1 @0
2 m1.2 drop a = ok\";
  labelloc=t;
  rankdir=LR;
  subgraph cluster_managed {
    label=\"managed heap\";
    m1 [label=\"m1 bridge\"];
  }
  subgraph cluster_peers {
    label=\"peer heap\";
    p1 [label=\"p1 user\"];
  }
  \"m1\" -> \"p1\" [dir=both,penwidth=2,label=\"h1\"];
}
";

// After entry 1, the peer alone.
const ALONE: &[u8] = b"digraph heaps {
  label=\"1 m1.1 adopt a bridge 1 p1 h1 = m1 @0\";
  labelloc=t;
  rankdir=LR;
  subgraph cluster_managed {
    label=\"managed heap\";
  }
  subgraph cluster_peers {
    label=\"peer heap\";
    p1 [label=\"p1 user\"];
  }
}
";

const USAGE: &[u8] = b"usage: heap_picture N [M] [--around NODE K]\n";

// The words, the text, the number of the source's call that fails and of the sink's, 0 for none; and the status and
// what is written. A sink takes seven bytes a call.
type Run = (
    &'static [&'static str],
    &'static [u8],
    u32,
    u32,
    u8,
    &'static [u8],
);

const RUNS: [Run; 35] = [
    (&["1"], REPORT, 0, 0, 0, HELD),
    (&["0", "1"], REPORT, 0, 0, 0, ADOPTED),
    (&["1", "2", "--around", "p1", "1"], REPORT, 0, 0, 0, DROPPED),
    (&["1", "--around", "p1", "0"], REPORT, 0, 0, 0, ALONE),
    (&["1", "--around", "m1", "9"], REPORT, 0, 0, 0, HELD),
    // words that ask for nothing that can be drawn
    (&[], REPORT, 0, 0, 1, USAGE),
    (&["x"], REPORT, 0, 0, 1, USAGE),
    (&["01"], REPORT, 0, 0, 1, USAGE),
    (&["18446744073709551616"], REPORT, 0, 0, 1, USAGE),
    (&["1", "1"], REPORT, 0, 0, 1, USAGE),
    (&["2", "1"], REPORT, 0, 0, 1, USAGE),
    (&["1", "x"], REPORT, 0, 0, 1, USAGE),
    (&["0", "1", "2"], REPORT, 0, 0, 1, USAGE),
    (&["1", "--around", "p1"], REPORT, 0, 0, 1, USAGE),
    (&["1", "around", "p1", "1"], REPORT, 0, 0, 1, USAGE),
    (&["1", "--around", "h1", "1"], REPORT, 0, 0, 1, USAGE),
    (&["1", "--around", "p01", "1"], REPORT, 0, 0, 1, USAGE),
    (
        &["1", "--around", "m4294967296", "1"],
        REPORT,
        0,
        0,
        1,
        USAGE,
    ),
    (&["1", "--around", "p1", "-1"], REPORT, 0, 0, 1, USAGE),
    (&["x", "--around", "p1", "1"], REPORT, 0, 0, 1, USAGE),
    (&["2", "1", "--around", "p1", "1"], REPORT, 0, 0, 1, USAGE),
    (
        &["0", "1", "--around", "p1", "1", "2"],
        REPORT,
        0,
        0,
        1,
        USAGE,
    ),
    // faults of the source
    (&["1"], REPORT, 1, 0, 2, b""),
    (&["1"], REPORT, 2, 0, 2, b""),
    (&["x"], REPORT, 1, 0, 1, USAGE),
    // no report, an entry that isn't in order, and what isn't there
    (&["1"], b"x\n", 0, 0, 3, b"line 1: cause 14 form\n"),
    (&["3"], REPORT, 0, 0, 3, b"no such entry\n"),
    (&["1", "3"], REPORT, 0, 0, 3, b"no such entry\n"),
    (
        &["0", "--around", "m1", "2"],
        REPORT,
        0,
        0,
        3,
        b"no such node\n",
    ),
    (
        &["1", "--around", "m4294967295", "2"],
        REPORT,
        0,
        0,
        3,
        b"no such node\n",
    ),
    // faults of the sink
    (&["1"], REPORT, 0, 1, 4, b""),
    (&["1"], REPORT, 0, 3, 4, b"digraph heaps "),
    (&["x"], REPORT, 0, 2, 4, b"usage: "),
    (&["3"], REPORT, 0, 2, 4, b"no such"),
    (&["1"], REPORT, 0, 99, 0, HELD),
];

// The words of a command.
fn words_of(alloc: Global, words: &[&str]) -> Result<Vec<String>, AllocError> {
    let mut owned = Vec::new(alloc);
    for word in words {
        owned.push(String::from_str(alloc, word)?)?;
    }
    Ok(owned)
}

/// Makes the top call with these words, and answers its status. (It has no clause, so that its callers' proofs don't
/// carry those of the top call.)
pub(crate) fn status_of<S: Source + Drop>(
    alloc: Global,
    words: &[&str],
    mut source: S,
    out: &mut ByteSink,
) -> Result<u8, AllocError> {
    let words = words_of(alloc, words)?;
    Ok(picture_main(alloc, &words, &mut source, out))
}

/// The source of a text. Its call with that number fails, 0 for none.
pub(crate) fn source_of(
    alloc: Global,
    text: &[u8],
    read_fault: u32,
) -> Result<ByteSource, AllocError> {
    let fails = [read_fault].to_vec(alloc)?;
    Ok(ByteSource::new(text.to_vec(alloc)?, fails))
}

#[test]
fn each_run_has_its_status_and_its_text(rt: HostRuntime) -> Result<(), Fail> {
    for (words, text, read_fault, write_fault, status, written) in &RUNS {
        let fails = [*write_fault].to_vec(rt.alloc())?;
        let source = source_of(rt.alloc(), text, *read_fault)?;
        let mut out = ByteSink::new(rt.alloc(), 7, fails);
        let found = status_of(rt.alloc(), words, source, &mut out)?;
        assert_eq!(rt; found, *status, "for {words:?}");
        assert_eq!(rt; out.bytes(), *written);
    }
    Ok(())
}
