// Marks of what is reached in a small graph, by their public calls.

ghost use Rattle.std.specs.Prelude.{◌*◌, ◌%◌, [], ◌∷◌, Some, None};

use reachability::{Walked, mark_reached, reached};
use std::alloc::AllocError;

// Node x leads to 2 * x, counted round; its second place is empty.
#[derive(Drop)]
struct Doubling {
    count: u32,
}

impl Walked for Doubling {
    ghost nodes = { λ d. d.count };

    ghost targets = { λ d x. Some (x * 2 % d.count) ∷ None ∷ [] };

    fn len(&self) -> usize {
        self.count as usize
    }

    fn degree(&self, _x: usize) -> usize {
        2
    }

    fn target(&self, x: usize, i: usize) -> Option<u32> {
        let count = self.count as usize;
        if i == 0 {
            Some((x * 2 % count) as u32)
        } else {
            None
        }
    }
}

#[test]
fn marks_what_is_reached(rt: HostRuntime) -> Result<(), AllocError> {
    let graph = Doubling { count: 6 };
    let marks = reached(rt.alloc(), &graph, &[1])?;
    assert_eq!(rt;
        marks.as_slice(),
        [false, true, true, false, true, false].as_slice()
    );
    Ok(())
}

#[test]
fn goes_on_with_earlier_marks(rt: HostRuntime) -> Result<(), AllocError> {
    let graph = Doubling { count: 6 };
    let mut waiting = Vec::with_capacity(rt.alloc(), 6)?;
    let mut fresh = [false; 6];
    mark_reached(&graph, &[5, 5], &mut fresh, &mut waiting);
    mark_reached(&graph, &[], &mut fresh, &mut waiting);
    mark_reached(&graph, &[3], &mut fresh, &mut waiting);
    assert_eq!(rt;
        fresh.as_slice(),
        [true, false, true, true, true, true].as_slice()
    );
    Ok(())
}
