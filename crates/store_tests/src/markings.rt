// A marking of five rows: the xth leads to the one at x % 3 + 3, and the first to the second too.

ghost use Rattle.std.specs.Prelude.{◌≡◌, ◌+◌, ◌≤◌, ◌<◌, ◌%◌, ◌⊎◌, false, replicate};
ghost use Rattle.row_marking.specs.Traces.{Greyed};

use row_marking::{Traced, mark_from, scan_some, visit};
use std::test::Fail;

#[derive(Drop)]
struct Five {
    marks: [bool; 6],
    links: [u32; 6],
}

impl Traced for Five {
    ghost Kept = { Unit {0} };

    ghost kept = { λ f. tt };

    ghost leads = { λ f x y. (y ≡ x % 3 + 3) ⊎ ((x ≡ 1) × (y ≡ 2)) };

    ghost is_row = { λ f x. x < 6 };

    ghost marks = { λ f. f.marks };

    ghost links = { λ f. f.links };

    fn is_marked(&self, x: usize) -> bool {
        self.marks[x]
    }

    fn link(&self, x: usize) -> u32 {
        self.links[x]
    }

    fn mark(&mut self, x: usize, link: u32) {
        self.marks[x] = true;
        self.links[x] = link;
    }

    fn scan(&mut self, x: usize, grey: &mut u32) {
        self.see(x % 3 + 3, grey);
        if x == 1 {
            self.see(2, grey);
        }
    }
}

impl Five {
    // Marks row `y`, which comes first in the list of grey rows if it wasn't marked.
    fn see(&mut self, y: usize, grey: &mut u32)
        requires { (1 ≤ y) × (y < 6) }
        ensures { Greyed (λ z. z ≡ y) self.old.marks self.old.links grey.old self.new.marks self.new.links grey.new }
    {
        if !self.is_marked(y) {
            self.mark(y, *grey);
            *grey = y as u32;
        }
    }
}

fn unmarked_rows() -> Five
    ensures { result.marks ≡ replicate 6 false }
{
    Five {
        marks: [false; 6],
        links: [7; 6],
    }
}

#[test]
fn marks_what_is_reached(rt: HostRuntime) -> Result<(), Fail> {
    let mut rows = unmarked_rows();
    mark_from(&mut rows, &[1]);
    assert_eq!(rt; rows.marks, [false, true, true, false, true, true]);
    mark_from(&mut rows, &[3, 3]);
    assert_eq!(rt; rows.marks, [false, true, true, true, true, true]);
    Ok(())
}

#[test]
fn marks_in_steps(rt: HostRuntime) -> Result<(), Fail> {
    let mut rows = unmarked_rows();
    let mut grey = 0;
    visit(&mut rows, 2, &mut grey);
    visit(&mut rows, 2, &mut grey);
    assert_eq!(rt; rows.marks, [false, false, true, false, false, false]);
    assert_eq!(rt; grey, 2);
    Ok(())
}

// Of the grey rows the one that became grey last is scanned first, and what it leads to then.
#[test]
fn marks_in_slices(rt: HostRuntime) -> Result<(), Fail> {
    let mut rows = unmarked_rows();
    let mut grey = 0;
    visit(&mut rows, 1, &mut grey);
    let (grey, scanned) = scan_some(&mut rows, grey, 1);
    assert_eq!(rt; (grey, scanned), (2, 1));
    assert_eq!(rt; rows.marks, [false, true, true, false, true, false]);
    let (grey, scanned) = scan_some(&mut rows, grey, 64);
    assert_eq!(rt; (grey, scanned), (0, 3));
    assert_eq!(rt; rows.marks, [false, true, true, false, true, true]);
    Ok(())
}
