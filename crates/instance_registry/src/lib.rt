// The instance registry: which managed object stands for which peer.
//
// The twin of a peer is looked for, and put in where there is none:
//
//     let m = match registry.twin(p) {
//         Some(m) => m,
//         None => { registry.add(p, new)?; new }
//     };
//
// A bridge object and its peer are twins: two halves of one instance, one in each heap. When a peer comes to the
// managed side, the registry tells whether a managed object stands for it already, so that no second one is made.
//
// The life of a pair: `register` puts it last, when the managed half is made; it is refused where the peer has a twin.
// `add` does the same for who knows that the peer has none. `twin` finds the managed half by a hash of the peer's
// number. `forget` takes the pair out, when the managed half is freed or disposed of; `retain` takes many out in one
// pass. `len` and `entry` walk the pairs in the order of their registration. No peer ever stands in two pairs.
//
// The registry is a part of the managed side, which alone changes it, under that side's lock. What is promised: the
// pairs after each call are those of the definition, no peer ever stands in two pairs, a second twin is refused exactly
// where the peer has one, and none of the calls but `register` and `add` takes memory. A call that is refused changes
// nothing.
#![tactic(auto)]

ghost use Rattle.std.specs.Prelude.{◌≡◌, ◌-◌, ◌==◌, ◌↔◌, [], ◌∷◌, ◌++◌, Bool, IsTrue, filter, length, slice_get, Ok};
ghost use Rattle.std.specs.Prelude.{Err, None, Some, OnOk, OnErr};
ghost use Rattle.instance_registry.specs.Pairs.{twin_in, without, IsToldBy, PeersDistinct};
ghost use Rattle.joint_machine.specs.declared.names.MNum.{MNum};
ghost use Rattle.joint_machine.specs.declared.names.PNum.{PNum};

use indexmap::IndexMap;
use joint_machine::{MNum, PNum};
use std::alloc::{AllocError, Global};
use std::marker::Model;

// The most pairs that a [`Registry`] holds.
const MOST: usize = 4_294_967_295;

/// Why a pair wasn't registered.
#[derive(Clone, Copy, PartialEq, Eq, Debug)]
pub enum RegisterFault {
    /// There is no memory for one more pair.
    OutOfMemory,
    /// The peer has a twin already: `m`.
    Taken { m: MNum },
}

/// Pairs of a peer and the managed object that stands for it, in the order of their registration. No peer
/// stands in two pairs. It holds at most 4,294,967,295; a growth past that is refused as a growth.
#[derive(Drop)]
pub struct Registry {
    pairs: IndexMap<PNum, MNum>,
}

impl Model for Registry {
    ghost use Rattle.std.specs.Prelude.{List, ◌≤◌, length};
    ghost use Rattle.joint_machine.specs.declared.names.MNum.{MNum};
    ghost use Rattle.joint_machine.specs.declared.names.PNum.{PNum};
    ghost use Rattle.joint_machine.specs.Numbers.{u32_max};

    ghost Value = { List (PNum × MNum) };

    ghost view = { λ s. s.pairs.entries };

    ghost invariant = { λ s. length s.pairs.entries ≤ u32_max };
}

impl Registry {
    /// A registry with no pair. It keeps the allocator, and takes no memory.
    pub fn new(alloc: Global) -> Registry
        ensures { result ≡ [] }
    {
        Registry {
            pairs: IndexMap::new(alloc),
        }
    }

    /// Puts the pair of `p` and `m` last.
    ///
    /// Answers `Taken` exactly where `p` has a twin, with that twin, whatever `m` is; this is tested before
    /// memory is asked for. Answers `OutOfMemory` where there is no memory for the pair, or where there are
    /// 4,294,967,295 pairs. After either the registry is as before.
    pub fn register(&mut self, p: PNum, m: MNum) -> Result<(), RegisterFault>
        ensures ok { OnOk result (self.new ≡ self.old ++ (p, m) ∷ []) }
        ensures taken { (twin : MNum) → (result ≡ Err (RegisterFault.Taken twin)) ↔ (twin_in self.old p ≡ Some twin) }
        ensures err { OnErr result (self.new ≡ self.old) }
        ensures distinct { PeersDistinct self.new }
    {
        if let Some(twin) = self.twin(p) {
            return Err(RegisterFault::Taken { m: twin });
        }
        match self.add(p, m) {
            Ok(()) => Ok(()),
            Err(_) => Err(RegisterFault::OutOfMemory),
        }
    }

    /// Puts the pair of `p` and `m` last, where `p` is known to have no twin: it does without the look-up of
    /// [`Registry::register`].
    ///
    /// Answers `AllocError`, with nothing changed, where there is no memory for the pair, or where there are
    /// 4,294,967,295 pairs.
    pub fn add(&mut self, p: PNum, m: MNum) -> Result<(), AllocError>
        requires { twin_in self.old p ≡ None }
        ensures ok { OnOk result (self.new ≡ self.old ++ (p, m) ∷ []) }
        ensures err { OnErr result (self.new ≡ self.old) }
        ensures distinct { PeersDistinct self.new }
    {
        if self.pairs.len() == MOST {
            return Err(AllocError);
        }
        match self.pairs.insert(p, m) {
            Ok(_) => Ok(()),
            Err(_) => Err(AllocError),
        }
    }

    /// The managed object that stands for `p`; None exactly where `p` has no twin. The look-up is by hash.
    pub fn twin(&self, p: PNum) -> Option<MNum>
        ensures twin { result ≡ twin_in self.now p }
        ensures distinct { PeersDistinct self.now }
    {
        let _unique = self.pairs.len();
        self.pairs.get(&p).copied()
    }

    /// Takes out the pair of `p` and answers its managed number; None, with nothing changed, exactly where `p`
    /// has no twin. It takes no memory. The other pairs keep their order, so each later pair moves down by one
    /// place: to take many pairs out, call [`Registry::retain`], which moves each at most once. The pair that was
    /// put last is taken out without a look-up.
    pub fn forget(&mut self, p: PNum) -> Option<MNum>
        ensures twin { result ≡ twin_in self.old p }
        ensures pairs { self.new ≡ without self.old p }
        ensures distinct { PeersDistinct self.new }
    {
        if !self.ends_with(p) {
            return self.pairs.shift_remove(&p);
        }
        let Some((_, m)) = self.pairs.pop() else {
            unreachable!();
        };
        Some(m)
    }

    // Whether the pair of `p` was put last.
    fn ends_with(&self, p: PNum) -> bool
        ensures last { IsTrue result → (m : MNum) × (slice_get self.now (length self.now - 1) ≡ Some (p, m)) }
        ensures distinct { PeersDistinct self.now }
    {
        let _unique = self.pairs.len();
        match self.pairs.last() {
            Some((last, _)) => *last == p,
            None => false,
        }
    }

    /// Keeps the pairs for which `keep` answers true, in their order, and takes out the others, in one pass over all
    /// of them. It takes no memory.
    pub fn retain<F: Fn(PNum, MNum) -> bool>(&mut self, keep: F)
        requires { F.IsAlwaysCallable keep }
        ensures pairs { (test : PNum × MNum → Bool) → IsToldBy (F.post keep) test → self.new ≡ filter test self.old }
        ensures distinct { PeersDistinct self.new }
    {
        self.pairs.retain(
            |p: &PNum, m: &mut MNum| -> bool
                requires { F.IsAlwaysCallable keep }
                ensures { (F.post keep p.now m.old result) × (m.new ≡ m.old) }
            { keep(*p, *m) },
        );
    }

    /// The number of pairs.
    pub fn len(&self) -> u32
        ensures len { result ≡ length self.now }
        ensures distinct { PeersDistinct self.now }
    {
        self.pairs.len() as u32
    }

    /// Whether there is no pair.
    pub fn is_empty(&self) -> bool
        ensures { result ≡ (length self.now == 0) }
    {
        self.pairs.len() == 0
    }

    /// The pair at place `i`, from 0, in the order of registration; None exactly where `i` isn't below the
    /// number of pairs.
    pub fn entry(&self, i: u32) -> Option<(PNum, MNum)>
        ensures { result ≡ slice_get self.now i }
    {
        let (p, m) = self.pairs.get_index(i as usize)?;
        Some((*p, *m))
    }
}
