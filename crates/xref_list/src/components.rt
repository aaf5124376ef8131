// Components and cross-references, while they are being listed and afterwards.

ghost use Rattle.std.specs.Prelude.{◌≡◌, ◌-◌, ◌≢◌, ℕ, ◌<◌, ◌≤◌, [], ◌∷◌, ◌++◌, length, map, Contains, All, IfOk, OnOk};
ghost use Rattle.std.specs.Prelude.{OnErr, slice_get, Some, IsPermutation, ◌+◌, vec_len, vec_capacity};
ghost use Rattle.joint_machine.specs.Components.{Rises, first_of, first_at, end_at, mirror_edges};
ghost use Rattle.xref_list.specs.Adding.{AddsPair};
ghost use Rattle.xref_list.specs.Ends.{end_of, ends_of};
ghost use Rattle.xref_list.specs.Listing.{AreDisjoint, AreComponents, IsListing};

use crate::circles::push_circle;
use crate::faults::ListingFault;
use crate::pairs::{Added, PairList};
use bridge_graph::packed_row;
use std::alloc::{AllocError, Global};
use std::marker::Model;

// The most members of all components and pairs together: so the mirror edges, of which a member and a pair have one
// each at most, can be counted.
const MOST: usize = 4_294_967_295;

/// An end of a mirror edge: a node, or the temporary of the component with that index, which has no members.
#[derive(Clone, Copy, PartialEq, Eq, Debug)]
pub enum End {
    Node(u32),
    Temp(u32),
}

/// Components and cross-references that are being listed: components in the order of their first members, then
/// those without members, and pairs in any order.
#[derive(Drop)]
pub struct ComponentsBuilder {
    members: Vec<u32>,
    starts: Vec<u32>,
    circles: Vec<(u32, u32)>,
    pairs: PairList,
    sorted: bool,
    heavy: u32,
}

impl Model for ComponentsBuilder {
    ghost use Rattle.std.specs.Prelude.{length};
    ghost use Rattle.xref_list.specs.Listing.{Listing};

    ghost Value = { Listing };

    ghost use Rattle.bridge_graph.specs.Packing.{packed_rows};
    ghost use Rattle.xref_list.specs.Kept.{IsListingBegun};

    ghost view = { λ b. record {
      comps = packed_rows b.starts.items b.members.items (length b.starts.items);
      heavy = b.heavy;
      pairs = b.pairs;
    } };

    ghost invariant = { λ b. IsListingBegun b.members.items b.starts.items b.circles.items b.heavy b.pairs b.sorted };
}

impl ComponentsBuilder {
    /// No component; the builder keeps the allocator.
    pub fn new(alloc: Global) -> ComponentsBuilder
        ensures comps { result.comps ≡ [] }
        ensures heavy { result.heavy ≡ 0 }
        ensures pairs { result.pairs ≡ [] }
    {
        ComponentsBuilder {
            members: Vec::new(alloc),
            starts: Vec::new(alloc),
            circles: Vec::new(alloc),
            pairs: PairList::new(alloc),
            sorted: true,
            heavy: 0,
        }
    }

    /// Makes room for so many components, which have so many members in all. Answers `AllocError` where there is no
    /// memory; the components and pairs are as before in any case.
    pub fn reserve(&mut self, comps: u32, members: u32) -> Result<(), AllocError>
        ensures comps { self.new.comps ≡ self.old.comps }
        ensures heavy { self.new.heavy ≡ self.old.heavy }
        ensures pairs { self.new.pairs ≡ self.old.pairs }
    {
        take_room(
            &mut self.starts,
            comps as usize,
            &mut self.circles,
            &mut self.members,
            members as usize,
        )
    }

    /// The number of components so far.
    pub fn len(&self) -> u32
        ensures count { result ≡ length self.now.comps + self.now.heavy }
        ensures components { AreComponents self.now.comps }
        ensures few { length self.now.comps + self.now.heavy ≤ u32.MAX - 1 }
    {
        self.starts.len() as u32 + self.heavy
    }

    /// Lists a component without members, and answers its index. It takes no memory that it hasn't, and so
    /// never answers `AllocError`.
    pub fn bridgeless(&mut self) -> Result<u32, AllocError>
        requires few { length self.old.comps + self.old.heavy < u32.MAX - 1 }
        ensures index { IfOk result (λ i. i ≡ length self.old.comps + self.old.heavy) }
        ensures heavy { OnOk result (self.new.heavy ≡ self.old.heavy + 1) }
        ensures comps { self.new.comps ≡ self.old.comps }
        ensures pairs { self.new.pairs ≡ self.old.pairs }
        ensures err { OnErr result (self.new.heavy ≡ self.old.heavy) }
    {
        let index = self.len();
        self.heavy += 1;
        Ok(index)
    }

    /// Lists a component, whose members are node indexes, and answers its index. None without members was listed
    /// before. Answers `Memory` where there is no memory, and `TooMany` where all members and pairs would be more than
    /// 4,294,967,295 together; the components are then as before.
    pub fn component(&mut self, objs: &[u32]) -> Result<u32, ListingFault>
        requires none { self.old.heavy ≡ 0 }
        requires some { 0 < length objs.now }
        requires rises { Rises objs.now }
        requires below { All (λ x. x < u32.MAX - 1) objs.now }
        requires apart { All (λ members. AreDisjoint members objs.now) self.old.comps }
        requires after { All (λ members. first_of members < first_of objs.now) self.old.comps }
        ensures index { IfOk result (λ i. i ≡ length self.old.comps) }
        ensures comps { OnOk result (self.new.comps ≡ self.old.comps ++ objs.now ∷ []) }
        ensures heavy { self.new.heavy ≡ 0 }
        ensures pairs { self.new.pairs ≡ self.old.pairs }
        ensures err { OnErr result (self.new.comps ≡ self.old.comps) }
    {
        if objs.len() > MOST - self.members.len() - self.pairs.len() {
            return Err(ListingFault::TooMany);
        }
        let index = self.starts.len() as u32;
        let start = self.members.len() as u32;
        take_room(
            &mut self.starts,
            1,
            &mut self.circles,
            &mut self.members,
            objs.len(),
        )?;
        append(objs, &mut self.members);
        self.starts.push_reserved(start);
        push_circle(objs, &mut self.circles);
        Ok(index)
    }

    /// Lists a cross-reference between two components, and answers whether it is new: where it is listed
    /// already nothing changes. Answers `Memory` where there is no memory, and `TooMany` where members and pairs are
    /// 4,294,967,295 together; the pairs are then as before.
    pub fn add(&mut self, src: u32, dst: u32) -> Result<Added, ListingFault>
        requires source { src < length self.old.comps + self.old.heavy }
        requires destination { dst < length self.old.comps + self.old.heavy }
        requires apart { src ≢ dst }
        ensures added { IfOk result (λ a. AddsPair a self.old.pairs self.new.pairs (src, dst)) }
        ensures comps { self.new.comps ≡ self.old.comps }
        ensures heavy { self.new.heavy ≡ self.old.heavy }
        ensures err { OnErr result (self.new.pairs ≡ self.old.pairs) }
    {
        if self.pairs.len() >= MOST - self.members.len() {
            return Err(ListingFault::TooMany);
        }
        self.sorted = false;
        Ok(self.pairs.add((src, dst))?)
    }

    /// Lists the cross-references from one component to many. Its index is greater than the source of every
    /// pair so far, so no pair needs to be looked for. Answers `Memory` where there is no memory, and
    /// `TooMany` where members and pairs would be more than 4,294,967,295 together; the pairs are then as before.
    pub fn add_all(&mut self, src: u32, dsts: &[u32]) -> Result<(), ListingFault>
        requires source { src < length self.old.comps + self.old.heavy }
        requires rises { Rises dsts.now }
        requires destinations { All (λ d. d < length self.old.comps + self.old.heavy) dsts.now }
        requires apart { All (λ d. src ≢ d) dsts.now }
        requires fresh { All (λ p. p.0 < src) self.old.pairs }
        ensures pairs { OnOk result (self.new.pairs ≡ self.old.pairs ++ map (λ d. (src, d)) dsts.now) }
        ensures comps { self.new.comps ≡ self.old.comps }
        ensures heavy { self.new.heavy ≡ self.old.heavy }
        ensures err { OnErr result (self.new.pairs ≡ self.old.pairs) }
    {
        if dsts.len() > MOST - self.members.len() - self.pairs.len() {
            return Err(ListingFault::TooMany);
        }
        Ok(self.pairs.add_all(src, dsts)?)
    }

    /// The components with their cross-references in order. Answers `Memory` where the sort has no
    /// memory; it took the builder, and gives nothing back then.
    pub fn finish(self) -> Result<Components, ListingFault>
        ensures comps { IfOk result (λ c. c.comps ≡ self.comps) }
        ensures heavy { IfOk result (λ c. c.heavy ≡ self.heavy) }
        ensures pairs { IfOk result (λ c. IsPermutation self.pairs c.pairs) }
        ensures listing { IfOk result (λ c. IsListing c.comps c.heavy c.pairs) }
    {
        let ComponentsBuilder {
            members,
            starts,
            circles,
            pairs,
            sorted,
            heavy,
        } = self;
        let pairs = pairs.finish(sorted)?;
        Ok(Components {
            members,
            starts,
            circles,
            pairs,
            heavy,
        })
    }
}

/// Components of bridge nodes, those without members behind them, and the cross-references between all of them.
///
/// The members of a component are node indexes and rise, components with members stand in the order of their first
/// members, and no node is in two. Pairs rise by source and then by destination, and none joins a component
/// with itself.
#[derive(Drop)]
pub struct Components {
    members: Vec<u32>,
    starts: Vec<u32>,
    circles: Vec<(u32, u32)>,
    pairs: Vec<(u32, u32)>,
    heavy: u32,
}

impl Model for Components {
    ghost use Rattle.std.specs.Prelude.{length};
    ghost use Rattle.xref_list.specs.Listing.{Listing};

    ghost Value = { Listing };

    ghost use Rattle.bridge_graph.specs.Packing.{packed_rows};
    ghost use Rattle.xref_list.specs.Kept.{IsWholeListing};

    ghost view = { λ b. record {
      comps = packed_rows b.starts.items b.members.items (length b.starts.items);
      heavy = b.heavy;
      pairs = b.pairs.items;
    } };

    ghost invariant = { λ b. IsWholeListing b.members.items b.starts.items b.circles.items b.heavy b.pairs.items };
}

impl Components {
    /// The number of components, those without members with them.
    pub fn len(&self) -> u32
        ensures count { result ≡ length self.now.comps + self.now.heavy }
        ensures listing { IsListing self.now.comps self.now.heavy self.now.pairs }
    {
        self.starts.len() as u32 + self.heavy
    }

    /// The number of components without members, which come last.
    pub fn heavy(&self) -> u32
        ensures { result ≡ self.now.heavy }
    {
        self.heavy
    }

    /// The members of component `c`, as node indexes: none, where it is one of those that come last.
    pub fn objs(&self, c: u32) -> &[u32]
        requires { c < length self.now.comps + self.now.heavy }
        ensures members { c < length self.now.comps → slice_get self.now.comps c ≡ Some result.now }
        ensures some { c < length self.now.comps → 0 < length result.now }
        ensures none { length self.now.comps ≤ c → result.now ≡ [] }
    {
        if (c as usize) < self.starts.len() {
            return self.members_of(c);
        }
        &[]
    }

    // The members of a component that has some.
    fn members_of(&self, c: u32) -> &[u32]
        requires { c < length self.now.comps }
        ensures members { slice_get self.now.comps c ≡ Some result.now }
        ensures some { 0 < length result.now }
    {
        packed_row(&self.starts, &self.members, c as usize)
    }

    /// The number of cross-references.
    pub fn xrefs(&self) -> u32
        ensures { result ≡ length self.now.pairs }
    {
        self.pairs.len() as u32
    }

    /// The cross-reference with index `i`: its source and its destination, as component indexes.
    pub fn xref(&self, i: u32) -> (u32, u32)
        requires { i < length self.now.pairs }
        ensures { slice_get self.now.pairs i ≡ Some result }
    {
        self.pairs[i as usize]
    }

    /// The number of mirror edges.
    pub fn refs(&self) -> u32
        ensures { result ≡ length (mirror_edges self.now.comps self.now.pairs) }
    {
        (self.circles.len() + self.pairs.len()) as u32
    }

    /// The mirror edge with index `i`: first the circles, component by component, between nodes, and then for
    /// each cross-reference the edge from its source's end to its destination's. The end of a component is its first
    /// member, or its temporary where it has none.
    pub fn mirror_edge(&self, i: u32) -> (End, End)
        requires { i < length (mirror_edges self.now.comps self.now.pairs) }
        ensures { slice_get (map (ends_of (length self.now.comps)) (mirror_edges self.now.comps self.now.pairs))
            i ≡ Some result }
    {
        let at = i as usize;
        if at < self.circles.len() {
            let (from, to) = self.circles[at];
            return (End::Node(from), End::Node(to));
        }
        let (source, destination) = self.pairs[at - self.circles.len()];
        (self.end(source), self.end(destination))
    }

    // The end of component `c`.
    fn end(&self, c: u32) -> End
        requires { c < length self.now.comps + self.now.heavy }
        ensures { result ≡ end_of (length self.now.comps) (end_at self.now.comps c) }
    {
        if (c as usize) < self.starts.len() {
            return End::Node(self.first(c));
        }
        End::Temp(c)
    }

    // The first member of component `c`, which has members.
    fn first(&self, c: u32) -> u32
        requires { c < length self.now.comps }
        ensures { result ≡ first_at self.now.comps c }
    {
        self.members_of(c)[0]
    }
}

// Takes room for so many components with so many members in all. Answers `AllocError` where there is no memory. The
// lists hold what they held.
#[inline(always)]
fn take_room(
    starts: &mut Vec<u32>,
    comps: usize,
    circles: &mut Vec<(u32, u32)>,
    members: &mut Vec<u32>,
    more: usize,
) -> Result<(), AllocError>
    ensures kept { (starts.new.items ≡ starts.old.items)
        × (circles.new.items ≡ circles.old.items) × (members.new.items ≡ members.old.items) }
    ensures room { OnOk result ((vec_len starts.new + comps ≤ vec_capacity starts.new)
        × (vec_len circles.new + more ≤ vec_capacity circles.new)
        × (vec_len members.new + more ≤ vec_capacity members.new)) }
{
    starts.reserve(comps)?;
    circles.reserve(more)?;
    members.reserve(more)
}

// Puts the members of a component last, for which there is room. Most components have one member, so it is a loop, and
// no copy.
fn append(objs: &[u32], members: &mut Vec<u32>)
    requires { vec_len members.old + length objs.now ≤ vec_capacity members.old }
    ensures { members.new.items ≡ members.old.items ++ objs.now }
{
    for x in objs {
        members.push_reserved(*x);
    }
}
