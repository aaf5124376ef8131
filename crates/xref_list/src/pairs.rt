// Pairs of component indexes, each once, in the order in which they were added.

ghost use Rattle.std.specs.Prelude.{◌≡◌, ◌≢◌, ℕ, ◌+◌, ◌<◌, ◌≤◌, [], ◌∷◌, ◌++◌, length, map, Contains, All, AllPairs};
ghost use Rattle.std.specs.Prelude.{IsTrue, IfOk, OnOk, OnErr, slice_get, Some, IsPermutation, take, vec_len};
ghost use Rattle.std.specs.Prelude.{vec_capacity};
ghost use Rattle.std.specs.HashSet as bag;
ghost use Rattle.xref_list.specs.Adding.{AddsPair};
ghost use Rattle.xref_list.specs.Known.{ArePairsKnown};
ghost use Rattle.joint_machine.specs.Components.{Rises, PairsRise};

use std::alloc::{AllocError, Global};
use std::collections::HashSet;
use std::marker::Model;

/// Whether a pair was new or stood in the list already.
#[derive(Clone, Copy, PartialEq, Eq, Debug)]
pub enum Added {
    New,
    Old,
}

/// The pairs in the order of adding, and a set that has the first of them. The set is brought up to date
/// only where a pair comes alone, since pairs that come grouped by source need no look-up.
#[derive(Drop)]
pub(crate) struct PairList {
    pairs: Vec<(u32, u32)>,
    known: HashSet<(u32, u32)>,
}

impl Model for PairList {
    ghost use Rattle.std.specs.Prelude.{ℕ, List};

    ghost Value = { List (ℕ × ℕ) };

    ghost use Rattle.xref_list.specs.Known.{ArePairsKnown};

    ghost view = { λ s. s.pairs.items };

    ghost invariant = { λ s. ArePairsKnown s.pairs.items s.known.keys };
}

impl PairList {
    /// No pair; the list keeps the allocator.
    pub fn new(alloc: Global) -> PairList
        ensures { result ≡ [] }
    {
        PairList {
            pairs: Vec::new(alloc),
            known: HashSet::new(alloc),
        }
    }

    /// The number of pairs.
    pub fn len(&self) -> usize
        ensures { result ≡ length self.now }
    {
        self.pairs.len()
    }

    /// Adds a pair, unless it is there.
    pub fn add(&mut self, pair: (u32, u32)) -> Result<Added, AllocError>
        ensures added { IfOk result (λ a. AddsPair a self.old self.new pair) }
        ensures err { OnErr result (self.new ≡ self.old) }
    {
        catch_up(&self.pairs, &mut self.known)?;
        if self.known.contains(&pair) {
            return Ok(Added::Old);
        }
        self.pairs.reserve(1)?;
        self.pairs.push_reserved(pair);
        Ok(Added::New)
    }

    /// Adds the pairs from one source to many destinations, none of which is there.
    pub fn add_all(&mut self, src: u32, dsts: &[u32]) -> Result<(), AllocError>
        requires rises { Rises dsts.now }
        requires fresh { All (λ p. p.0 < src) self.old }
        ensures pairs { OnOk result (self.new ≡ self.old ++ map (λ d. (src, d)) dsts.now) }
        ensures err { OnErr result (self.new ≡ self.old) }
    {
        self.pairs.reserve(dsts.len())?;
        push_all(&mut self.pairs, src, dsts);
        Ok(())
    }

    /// The pairs, ordered by source and then by destination where `sorted` doesn't say that they are. It takes
    /// the list, and gives nothing back where the sort has no memory.
    pub fn finish(self, sorted: bool) -> Result<Vec<(u32, u32)>, AllocError>
        requires { IsTrue sorted → PairsRise self }
        ensures rising { IfOk result (λ v. PairsRise v.items) }
        ensures same { IfOk result (λ v. IsPermutation self v.items) }
    {
        let PairList {
            mut pairs,
            known: _,
        } = self;
        if !sorted {
            pairs.sort()?;
        }
        Ok(pairs)
    }
}

// Puts the pairs that are not yet known into the set. Where there is no memory those before are in it, which
// no caller sees: the set then knows the first pairs, as before.
fn catch_up(pairs: &[(u32, u32)], known: &mut HashSet<(u32, u32)>) -> Result<(), AllocError>
    requires known { ArePairsKnown pairs.now known.old.keys }
    ensures known { ArePairsKnown pairs.now known.new.keys }
    ensures all { OnOk result (length known.new.keys ≡ length pairs.now) }
{
    while known.len() < pairs.len() {
        known.insert(pairs[known.len()])?;
    }
    Ok(())
}

// Appends the pairs from one source; there is room.
fn push_all(pairs: &mut Vec<(u32, u32)>, src: u32, dsts: &[u32])
    requires { vec_len pairs.old + length dsts.now ≤ vec_capacity pairs.old }
    ensures { pairs.new.items ≡ pairs.old.items ++ map (λ d. (src, d)) dsts.now }
{
    for dst in dsts {
        pairs.push_reserved((src, *dst));
    }
}
