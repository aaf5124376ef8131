// Which handles are live behind the lines of a log that were read so far.

ghost use Rattle.std.specs.Prelude.{◌≡◌, ◌+◌, ◌<◌, ◌^◌, None, Some, OnOk, OnErr, MatchBool, IfOk};
ghost use Rattle.std.specs.BTreeMap.{IsOrdered, get, keys};
ghost use Rattle.std.specs.Ordering.{nat_cmp};
ghost use Rattle.log_text.specs.Behind.{MayStand, HasCounts, behind, none_live};
ghost use Rattle.log_text.specs.Live.{handles_of, shown};
ghost use Rattle.log_text.specs.Keys.{AreKeys};

use crate::lines::{LogLine, Mark};
use joint_model::HNum;
use std::alloc::{AllocError, Global};
use std::collections::BTreeMap;

/// The live handles of each strength with their peers, and the counts. Clauses see it as `shown` of `specs/Live.antt`.
/// The numbers come from whoever wrote the log, so that the maps are in the order of their keys: no choice of numbers
/// makes a look-up slow.
#[derive(Drop)]
pub struct LiveHandles {
    strong: BTreeMap<u32, u32>,
    weak: BTreeMap<u32, u32>,
    grefc: u64,
    gwrefc: u64,
}

impl LiveHandles {
    /// No handle is live.
    pub fn new(alloc: Global) -> LiveHandles
        ensures { shown result ≡ none_live }
    {
        LiveHandles {
            strong: BTreeMap::new(alloc),
            weak: BTreeMap::new(alloc),
            grefc: 0,
            gwrefc: 0,
        }
    }

    /// Whether a line may stand: a plus line where its handle isn't live in that strength, a minus line where it is, on
    /// that peer.
    pub fn may_stand(&self, line: &LogLine) -> bool
        ensures { MatchBool result (MayStand (shown self.now) line.now.mark line.now.h.0 line.now.p.0)
            (MayStand (shown self.now) line.now.mark line.now.h.0 line.now.p.0 → ⊥) }
    {
        match line.mark {
            Mark::GPlus => is_free(&self.strong, line.h.0),
            Mark::GMinus => is_on(&self.strong, line.h.0, line.p.0),
            Mark::WPlus => is_free(&self.weak, line.h.0),
            Mark::WMinus => is_on(&self.weak, line.h.0, line.p.0),
        }
    }

    /// Notes a line: its handle is live from a plus line on, and isn't from a minus line on.
    pub fn note(&mut self, line: &LogLine) -> Result<(), AllocError>
        requires strong { self.old.grefc + 1 < 2 ^ 64 }
        requires weak { self.old.gwrefc + 1 < 2 ^ 64 }
        ensures ok { OnOk result (shown self.new ≡ behind (shown self.old) line.now) }
        ensures err { OnErr result (shown self.new ≡ shown self.old) }
    {
        match line.mark {
            Mark::GPlus => {
                self.strong.insert(line.h.0, line.p.0)?;
                self.grefc += 1;
            }
            Mark::GMinus => {
                self.strong.remove(&line.h.0);
                self.grefc = self.grefc.saturating_sub(1);
            }
            Mark::WPlus => {
                self.weak.insert(line.h.0, line.p.0)?;
                self.gwrefc += 1;
            }
            Mark::WMinus => {
                self.weak.remove(&line.h.0);
                self.gwrefc = self.gwrefc.saturating_sub(1);
            }
        }
        Ok(())
    }

    /// Whether a line's counts are those that will stand behind it.
    pub fn will_have_counts(&self, line: &LogLine) -> bool
        requires strong { self.now.grefc + 1 < 2 ^ 64 }
        requires weak { self.now.gwrefc + 1 < 2 ^ 64 }
        ensures { MatchBool result (HasCounts (behind (shown self.now) line.now) line.now)
            (HasCounts (behind (shown self.now) line.now) line.now → ⊥) }
    {
        let (grefc, gwrefc) = match line.mark {
            Mark::GPlus => (self.grefc + 1, self.gwrefc),
            Mark::GMinus => (self.grefc.saturating_sub(1), self.gwrefc),
            Mark::WPlus => (self.grefc, self.gwrefc + 1),
            Mark::WMinus => (self.grefc, self.gwrefc.saturating_sub(1)),
        };
        line.grefc as u64 == grefc && line.gwrefc as u64 == gwrefc
    }

    /// The strong handles that are live, rising.
    pub fn strong(&self, alloc: Global) -> Result<Vec<HNum>, AllocError>
        ensures { IfOk result (λ u. AreKeys (shown self.now).strong u.items) }
    {
        keys_of(alloc, &self.strong)
    }

    /// The weak handles that are live, rising.
    pub fn weak(&self, alloc: Global) -> Result<Vec<HNum>, AllocError>
        ensures { IfOk result (λ u. AreKeys (shown self.now).weak u.items) }
    {
        keys_of(alloc, &self.weak)
    }
}

// Whether the map has no such key.
fn is_free(map: &BTreeMap<u32, u32>, h: u32) -> bool
    ensures { MatchBool result (get nat_cmp map.now h ≡ None) (get nat_cmp map.now h ≡ None → ⊥) }
{
    map.get(&h).is_none()
}

// Whether the map has the key with that value.
fn is_on(map: &BTreeMap<u32, u32>, h: u32, p: u32) -> bool
    ensures { MatchBool result (get nat_cmp map.now h ≡ Some p) (get nat_cmp map.now h ≡ Some p → ⊥) }
{
    match map.get(&h) {
        Some(on) => *on == p,
        None => false,
    }
}

// The keys of a map, as handles.
fn keys_of(alloc: Global, map: &BTreeMap<u32, u32>) -> Result<Vec<HNum>, AllocError>
    ensures ordered { IsOrdered nat_cmp map.now }
    ensures keys { IfOk result (λ u. u.items ≡ handles_of (keys map.now)) }
{
    map.keys().map(|h| HNum(*h)).collect(alloc)
}
