// Chains of many objects: that what lies around a node, and what two pictures have in common, is found in time.

use heap_pictures::{Arrow, ObjectNode, Picture, Side, Spot};
use picture_sheets::{alone, around, compared};
use std::alloc::{AllocError, Global};
use std::test::Fail;

// How many objects a chain has, and one more. Where each was looked for in all arrows this would take minutes.
const LONG: u32 = 1_001;

// A chain of objects from 1 to below `end`, each of which holds the next one, but for the last.
fn chain(alloc: Global, end: u32) -> Result<Picture, AllocError> {
    let mut objects = Vec::new(alloc);
    let mut arrows = Vec::new(alloc);
    for m in 1..end {
        objects.push(ObjectNode { m, kind: None })?;
        if 1 < m {
            let from = Spot::Object(m - 1);
            let to = Spot::Object(m);
            arrows.push(Arrow::Field { from, i: 0, to })?;
        }
    }
    Ok(Picture::of(
        objects,
        Vec::new(alloc),
        Vec::new(alloc),
        Vec::new(alloc),
        arrows,
    ))
}

#[test]
fn a_long_chain_is_around_its_first_object(rt: HostRuntime) -> Result<(), Fail> {
    let sheet = alone(rt.alloc(), chain(rt.alloc(), LONG)?);
    for (k, found) in [(0, 1), (1, 2), (7, 8), (LONG as u64, LONG as usize - 1)] {
        match around(rt.alloc(), &sheet, Side::Managed, 1, k)? {
            Some(part) => {
                assert_eq!(rt; part.stay().objects().len(), found);
                assert_eq!(rt; part.stay().arrows().len(), found - 1);
            }
            None => assert_eq!(rt; 0, found),
        }
    }
    Ok(())
}

#[test]
fn a_longer_chain_has_one_object_more(rt: HostRuntime) -> Result<(), Fail> {
    let old = chain(rt.alloc(), LONG)?;
    let new = chain(rt.alloc(), LONG + 1)?;
    let sheet = compared(rt.alloc(), &old, &new)?;
    assert_eq!(rt; sheet.stay().objects().len(), LONG as usize - 1);
    assert_eq!(rt; sheet.stay().arrows().len(), LONG as usize - 2);
    assert_eq!(rt; sheet.came().objects().len(), 1);
    assert_eq!(rt; sheet.came().arrows().len(), 1);
    assert_eq!(rt; sheet.went().objects().len(), 0);
    Ok(())
}
