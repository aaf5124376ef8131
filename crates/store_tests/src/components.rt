// Small lists of components: their members, pairs and mirror edges.

ghost use Rattle.std.specs.Prelude.{◌≡◌, []};

use std::alloc::Global;
use std::test::Fail;
use xref_list::{Added, Components, ComponentsBuilder, End, ListingFault};

// The pairs of the circles, in order.
const PAIRS: [(u32, u32); 4] = [(0, 1), (0, 2), (1, 0), (2, 1)];

// The mirror edges of the circles: each circle's own, and then one for each pair.
const EDGES: [(End, End); 9] = [
    (End::Node(0), End::Node(2)),
    (End::Node(2), End::Node(5)),
    (End::Node(5), End::Node(0)),
    (End::Node(3), End::Node(4)),
    (End::Node(4), End::Node(3)),
    (End::Node(0), End::Node(1)),
    (End::Node(0), End::Node(3)),
    (End::Node(1), End::Node(0)),
    (End::Node(3), End::Node(1)),
];

// The mirror edges of one component with two members and one without, which refer to each other.
const OVER_TEMPORARY: [(End, End); 4] = [
    (End::Node(4), End::Node(7)),
    (End::Node(7), End::Node(4)),
    (End::Node(4), End::Temp(1)),
    (End::Temp(1), End::Node(4)),
];

// Whether the pair may be added, and the call answers so.
fn adds(
    builder: &mut ComponentsBuilder,
    src: u32,
    dst: u32,
    wanted: Added,
) -> Result<bool, ListingFault> {
    if src >= builder.len() || dst >= builder.len() || src == dst {
        return Ok(false);
    }
    Ok(builder.add(src, dst)? == wanted)
}

// Whether the pairs stand just there, in that order.
fn has_pairs(components: &Components, pairs: &[(u32, u32)]) -> bool {
    for i in 0..components.xrefs() {
        if pairs.get(i as usize) != Some(&components.xref(i)) {
            return false;
        }
    }
    components.xrefs() as usize == pairs.len()
}

// Whether the mirror edges stand just there, in that order.
fn has_edges(components: &Components, edges: &[(End, End)]) -> bool {
    for i in 0..components.refs() {
        if edges.get(i as usize) != Some(&components.mirror_edge(i)) {
            return false;
        }
    }
    components.refs() as usize == edges.len()
}

// Whether component `c` has just those members.
fn has_members(components: &Components, c: u32, members: &[u32]) -> bool {
    c < components.len() && components.objs(c) == members
}

// Adds two components of one member each, and a pair twice. Answers whether each call answers as it should.
fn add_single(builder: &mut ComponentsBuilder) -> Result<bool, ListingFault>
    requires comps { builder.old.comps ≡ [] }
    requires heavy { builder.old.heavy ≡ 0 }
{
    let first = builder.component(&[0])?;
    let second = builder.component(&[3])?;
    Ok(
        (first, second) == (0, 1)
            && adds(builder, 0, 1, Added::New)?
            && adds(builder, 0, 1, Added::Old)?,
    )
}

// Adds the pairs that end elsewhere, and one that is there. Answers whether each call answers as it should.
fn add_pairs(builder: &mut ComponentsBuilder) -> Result<bool, ListingFault> {
    Ok(
        adds(builder, 2, 1, Added::New)?
            && adds(builder, 1, 0, Added::New)?
            && adds(builder, 0, 2, Added::Old)?,
    )
}

// Adds three components and their pairs. Answers whether each call answers as it should.
fn add_circles(builder: &mut ComponentsBuilder) -> Result<bool, ListingFault>
    requires comps { builder.old.comps ≡ [] }
    requires heavy { builder.old.heavy ≡ 0 }
    requires pairs { builder.old.pairs ≡ [] }
{
    let first = builder.component(&[0, 2, 5])?;
    let second = builder.component(&[1])?;
    let third = builder.component(&[3, 4])?;
    builder.add_all(0, &[1, 2])?;
    Ok((first, second, third) == (0, 1, 2) && add_pairs(builder)?)
}

// Adds a component with two members and one without, and the pairs between them. Answers whether each call answers as
// it should.
fn add_bridgeless(builder: &mut ComponentsBuilder) -> Result<bool, ListingFault>
    requires comps { builder.old.comps ≡ [] }
    requires heavy { builder.old.heavy ≡ 0 }
{
    let first = builder.component(&[4, 7])?;
    let second = builder.bridgeless()?;
    Ok(
        (first, second) == (0, 1)
            && adds(builder, 0, 1, Added::New)?
            && adds(builder, 1, 0, Added::New)?,
    )
}

// Whether the list is that of the circles.
fn are_circles(components: &Components) -> bool {
    components.len() == 3
        && has_members(components, 0, &[0, 2, 5])
        && has_pairs(components, PAIRS.as_slice())
        && has_edges(components, EDGES.as_slice())
}

// The lists of the tests.
#[derive(Clone, Copy)]
enum Case {
    // two components of one member each, and a pair that is added twice
    Single,
    // circles come first, then pairs in order, however they were added
    Circles,
    // a component without members stands behind the others, and a temporary stands for it
    Bridgeless,
}

fn add_case(builder: &mut ComponentsBuilder, case: Case) -> Result<bool, ListingFault>
    requires comps { builder.old.comps ≡ [] }
    requires heavy { builder.old.heavy ≡ 0 }
    requires pairs { builder.old.pairs ≡ [] }
{
    match case {
        Case::Single => add_single(builder),
        Case::Circles => add_circles(builder),
        Case::Bridgeless => add_bridgeless(builder),
    }
}

fn is_case(components: &Components, case: Case) -> bool {
    match case {
        Case::Single => has_edges(components, &[(End::Node(0), End::Node(3))]),
        Case::Circles => are_circles(components),
        Case::Bridgeless => {
            components.len() == 2
                && components.heavy() == 1
                && has_members(components, 1, &[])
                && has_edges(components, OVER_TEMPORARY.as_slice())
        }
    }
}

// Whether each call answers as it should, and the list is as it should be.
fn holds(alloc: Global, case: Case) -> Result<bool, ListingFault> {
    let mut builder = ComponentsBuilder::new(alloc);
    match add_case(&mut builder, case) {
        Ok(added) => {
            let components = builder.finish()?;
            let right = is_case(&components, case);
            drop(components);
            Ok(added && right)
        }
        Err(fault) => {
            drop(builder);
            Err(fault)
        }
    }
}

#[test]
fn one_pair(rt: HostRuntime) -> Result<(), Fail> {
    assert!(rt; holds(rt.alloc(), Case::Single)?);
    Ok(())
}

#[test]
fn circles_and_pairs(rt: HostRuntime) -> Result<(), Fail> {
    assert!(rt; holds(rt.alloc(), Case::Circles)?);
    Ok(())
}

#[test]
fn one_without_members(rt: HostRuntime) -> Result<(), Fail> {
    assert!(rt; holds(rt.alloc(), Case::Bridgeless)?);
    Ok(())
}
