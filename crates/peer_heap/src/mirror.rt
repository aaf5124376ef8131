// What a mirrored cycle does to the peers and their handles: references come to stand and go, and handles are made weak
// and then restored.
//
// Each call is one event of the definition, without its entry. Room for references is taken before; nothing else here
// takes memory.

ghost use Rattle.std.specs.Prelude.{◌≡◌, ◌≤◌, ◌<◌, Some, All, OnErr, OnOk, IsTrue, length, map, max};
ghost use Rattle.joint_machine.specs.Peers.{peer_of};
ghost use Rattle.joint_machine.specs.PeerReplay.{TableRow};
ghost use Rattle.row_marking.specs.Traces.{Greyed};
ghost use Rattle.row_heap.specs.Marks.{AreEndsLive, IsReferred};
ghost use Rattle.row_heap.specs.Ends.{ends_of};
ghost use Rattle.row_heap.specs.Rows.{MayReferBoth};
ghost use Rattle.peer_heap.specs.Mirroring.{RestoresHandle, RestoresRow, row_at, strong_row, weak_row, with_cleared};
ghost use Rattle.peer_heap.specs.Mirroring.{with_row, with_stood};
ghost use Rattle.peer_heap.specs.Rows.{AreTargetsLive, with_rows};

use crate::issues::Issue;
use crate::rows::PeerRows;
use global_handles::{Back, Hold, Strength};
use joint_model::{HNum, PNum};
use row_heap::End;
use std::alloc::AllocError;

impl PeerRows {
    /// Takes room for so many more references, and for so many temporaries, if there is room for fewer. Answers
    /// `AllocError`, with nothing changed, where there is no memory.
    pub(crate) fn reserve_refs(&mut self, refs: u32, temps: u32) -> Result<(), AllocError>
        ensures ok { OnOk result (self.new ≡ record self.old
            { rows = record self.old.rows { room = refs; temps = max self.old.rows.temps temps } }) }
        ensures err { OnErr result (self.new ≡ self.old) }
    {
        self.heap.reserve_references(refs, temps)
    }

    /// How many references stand.
    pub(crate) fn refs(&self) -> usize
        ensures { result ≡ length self.now.rows.refs }
    {
        self.heap.references_len()
    }

    /// References between live peers and temporaries come to stand, after those that stood; a marking that is open
    /// follows none from then on. It takes no memory.
    pub(crate) fn stand(&mut self, refs: &[(End, End)])
        requires ends { All (MayReferBoth self.old.rows) (map ends_of refs.now) }
        requires room { length refs.now ≤ self.old.rows.room }
        ensures { self.new ≡ with_stood self.old (map ends_of refs.now) }
    {
        self.heap.add_references(refs);
    }

    /// No reference stands from then on. If a marking is open, what they led to is shaded before. It takes no memory.
    pub(crate) fn clear_refs(&mut self, is_open: bool, grey: &mut u32)
        requires { AreEndsLive self.old.rows }
        ensures rest { self.new ≡ with_cleared self.old self.new.rows }
        ensures shaded { Greyed (λ k. IsTrue is_open × IsReferred self.old.rows k) self.old.rows.marks
            self.old.rows.links grey.old self.new.rows.marks self.new.rows.links grey.new }
    {
        self.shade_refs(is_open, grey);
        self.heap.clear_references();
    }

    // Shades what the references of live peers lead to, if a marking is open.
    fn shade_refs(&mut self, is_open: bool, grey: &mut u32)
        requires { AreEndsLive self.old.rows }
        ensures rest { self.new ≡ record self.old
            { rows = record self.old.rows { marks = self.new.rows.marks; links = self.new.rows.links } } }
        ensures shaded { Greyed (λ k. IsTrue is_open × IsReferred self.old.rows k) self.old.rows.marks
            self.old.rows.links grey.old self.new.rows.marks self.new.rows.links grey.new }
    {
        if !is_open {
            return;
        }
        self.heap.shade_references(grey);
    }

    /// Makes a strong handle weak. It takes no memory.
    pub(crate) fn weaken(&mut self, h: HNum)
        requires { row_at self.old h.0 ≡ Some strong_row }
        ensures { self.new ≡ with_row self.old h.0 weak_row }
    {
        self.table.weaken(h);
    }

    /// Removes a handle of the table, and answers `Cleared` where it is cleared; else a held strong handle on its peer
    /// comes in its place, which is `Alive`. While a marking is open, the peer is then shaded. It takes no memory.
    #[inline(always)]
    pub(crate) fn restore(&mut self, h: HNum, is_open: bool, grey: &mut u32) -> Back
        requires tabled { (row : TableRow) × (row_at self.old h.0 ≡ Some row) }
        requires live { AreTargetsLive self.old }
        requires last { length self.old.issued < u32.MAX }
        ensures { RestoresHandle is_open self.old grey.old h.0 result self.new grey.new }
    {
        let (back, peer) = self.renew(h);
        if back.is_alive() {
            self.bring_back(peer, is_open, grey);
        }
        back
    }

    // Removes a handle of the table, and answers its peer beside what it came back as: `Cleared` where it is cleared;
    // else a held strong handle on its peer comes in its place.
    #[inline(always)]
    fn renew(&mut self, h: HNum) -> (Back, PNum)
        requires tabled { (row : TableRow) × (row_at self.old h.0 ≡ Some row) }
        requires last { length self.old.issued < u32.MAX }
        ensures row { RestoresRow self.old h.0 result.0 self.new }
        ensures peer { peer_of self.old.issued h.0 ≡ Some (result.1).0 }
    {
        let (back, peer) = self.table.restore(h);
        if back.is_alive() {
            self.issued.push(Issue {
                peer,
                hold: Hold::Held,
                strength: Strength::Strong,
            });
        }
        (back, peer)
    }
}
