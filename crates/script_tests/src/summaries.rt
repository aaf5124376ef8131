// A summary at hand.

use byte_streams::ByteSink;
use command_words::Mode;
use run_summary::{Objects, Tally, write_summary};
use std::test::Fail;

// Its text.
const SUMMARY: &[u8] = b"seed 18446744073709551615 size 2800 mode threads
lines 18928 cycles 29
made managed 1 peers 2 handles 18446744073709551615
live managed 0 peers 1 handles 3
";

#[test]
fn a_summary_has_four_lines(rt: HostRuntime) -> Result<(), Fail> {
    let tally = Tally {
        cycles: 29,
        made: Objects {
            managed: 1,
            peers: 2,
            handles: u64::MAX,
        },
        left: Objects {
            managed: 0,
            peers: 1,
            handles: 3,
        },
    };
    let mut sink = ByteSink::new(rt.alloc(), 3, Vec::new(rt.alloc()));
    let written = write_summary(u64::MAX, 2800, Mode::Threads, 18_928, &tally, &mut sink);
    assert!(rt; written.is_ok() && sink.bytes() == SUMMARY);
    Ok(())
}
