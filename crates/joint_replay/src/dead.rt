// The peers that no joint root reaches.

ghost use Rattle.std.specs.Prelude.{◌≡◌, ℕ, ◌+◌, ◌<◌, ◌≤◌, ◌↔◌, ◌⊎◌, Contains, IfOk, OnOk, IsTrue, Some, All, length};
ghost use Rattle.std.specs.Prelude.{map, true, false};
ghost use Rattle.joint_machine.specs.Joint.{IsReachedIn, peer};
ghost use Rattle.joint_machine.specs.Heaps.{IsLive, MOST, numbered_at};
ghost use Rattle.joint_machine.specs.Histories.{peer_numbers};
ghost use Rattle.joint_machine.specs.Managed.{Holds};
ghost use Rattle.reachability.specs.Marks.{HasMark};
ghost use Rattle.joint_marking.specs.Gathered.{Gains};
ghost use Rattle.joint_marking.specs.Nodes.{IsLiveRoot};
ghost use Rattle.joint_marking.specs.Owned.{IsOwned};
ghost use Rattle.joint_replay.specs.Plain.{issued_as};
ghost use Rattle.joint_replay.specs.Graphs.{clean_graph, parts_graph, IsRooted, IsRootedIn, IsRootHandle};

use crate::both::BothParts;
use crate::managed::ManagedPart;
use crate::peers::{Handle, IssuedHold, IssuedStrength, PeerPart};
use crate::roots::named_roots;
use joint_marking::unreached_peers;
use joint_model::PNum;
use std::alloc::{AllocError, Global};

/// A mark for each peer that was made, by its number, and for number 0: whether it is live and no joint root reaches
/// it. Answers `AllocError` where there is no memory.
pub(crate) fn dead_peers(
    alloc: Global,
    managed: &ManagedPart,
    peers: &PeerPart,
    removed: &[bool],
) -> Result<Vec<bool>, AllocError>
    ensures { IfOk result (λ v. (p : ℕ) → HasMark v.items p
        ↔ (IsLive peers.now.heap p × (IsReachedIn (parts_graph managed.now peers.now removed.now) (peer p) → ⊥))) }
{
    let objects = managed.roots(alloc)?;
    let roots = peer_roots(alloc, managed, peers, removed)?;
    let both = BothParts {
        managed,
        peers,
        removed,
    };
    let dead = unreached_peers(alloc, &both, &objects, &roots)?;
    marks_of(alloc, &dead, peers.heap().made())
}

// The live peers that are joint roots: those that a variable or a static names, and those of handles that are roots by
// themselves.
fn peer_roots(
    alloc: Global,
    managed: &ManagedPart,
    peers: &PeerPart,
    removed: &[bool],
) -> Result<Vec<PNum>, AllocError>
    ensures { IfOk result (λ v. (k : ℕ) → Contains (peer_numbers v.items) k
        ↔ IsLiveRoot (clean_graph (parts_graph managed.now peers.now removed.now)) (peer k)) }
{
    let owned = owned_handles(alloc, managed, peers.handles())?;
    let mut roots = named_roots(alloc, peers.heap())?;
    push_rooted(peers, removed, &owned, &mut roots)?;
    as_peers(alloc, &roots)
}

// Numbers as those of peers.
fn as_peers(alloc: Global, numbers: &[u32]) -> Result<Vec<PNum>, AllocError>
    ensures { IfOk result (λ v. peer_numbers v.items ≡ numbers.now) }
{
    let mut peers = Vec::new(alloc);
    for p in numbers {
        peers.push(PNum(*p))?;
    }
    Ok(peers)
}

// Marks, by their numbers, the handles up to `handles` that a live object holds.
fn owned_handles(
    alloc: Global,
    managed: &ManagedPart,
    handles: u32,
) -> Result<Vec<bool>, AllocError>
    ensures len { IfOk result (λ v. length v.items ≡ handles + 1) }
    ensures exact { IfOk result (λ v. (h : ℕ) → HasMark v.items h ↔ IsOwned managed.now (handles + 1) h) }
{
    let heap = managed.heap();
    let mut owned = vec![in alloc; false; handles as usize + 1]?;
    for m in 1..heap.made() + 1 {
        if heap.is_live(m) {
            mark_held(managed, m, &mut owned);
        }
    }
    Ok(owned)
}

// Marks the handle that a live object holds.
fn mark_held(managed: &ManagedPart, m: u32, owned: &mut [bool])
    requires { IsLive managed.now.heap m }
    ensures len { length owned.new ≡ length owned.old }
    ensures marks { (h : ℕ) → HasMark owned.new h
        ↔ (HasMark owned.old h ⊎ (Holds managed.now m h × (h < length owned.old))) }
{
    if let Some(h) = managed.handle(m) {
        if (h as usize) < owned.len() {
            owned[h as usize] = true;
        }
    }
}

// Puts the live peers of the handles that aren't removed and are roots by themselves.
fn push_rooted(
    peers: &PeerPart,
    removed: &[bool],
    owned: &[bool],
    roots: &mut Vec<u32>,
) -> Result<(), AllocError>
    requires { length owned.now ≡ length peers.now.issued + 1 }
    ensures { OnOk result (Gains (IsRootedIn peers.now removed.now owned.now) roots.old.items roots.new.items) }
{
    for h in 1..peers.handles() as usize + 1 {
        if let Some(p) = rooted_peer(peers, removed, owned, h as u32) {
            roots.push(p)?;
        }
    }
    Ok(())
}

// The live peer of a handle that isn't removed and is a root by itself.
fn rooted_peer(peers: &PeerPart, removed: &[bool], owned: &[bool], h: u32) -> Option<u32>
    requires marks { h < length owned.now }
    ensures { (p : ℕ) → (result ≡ Some p) ↔ IsRooted peers.now removed.now owned.now h p }
{
    if !is_kept(removed, h) {
        return None;
    }
    match peers.handle(h) {
        None => None,
        Some(row) => {
            if is_root(row, owned, h) && peers.heap().is_live(row.peer) {
                Some(row.peer)
            } else {
                None
            }
        }
    }
}

// Whether handle `h`, which was issued so, is a root by itself: a raw strong one, or a held one that no live object
// holds.
fn is_root(row: Handle, owned: &[bool], h: u32) -> bool
    requires { h < length owned.now }
    ensures { IsTrue result ↔ IsRootHandle owned.now h (issued_as row) }
{
    match row.hold {
        IssuedHold::Raw => matches!(row.strength, IssuedStrength::Strong),
        IssuedHold::Held => !owned[h as usize],
    }
}

/// Whether the handle isn't removed.
pub(crate) fn is_kept(removed: &[bool], h: u32) -> bool
    ensures { IsTrue result ↔ (numbered_at removed.now h ≡ Some false) }
{
    if h == 0 || h as usize > removed.len() {
        return false;
    }
    !removed[h as usize - 1]
}

// A mark for each number up to `made`, set for the peers of the list.
fn marks_of(alloc: Global, dead: &[PNum], made: u32) -> Result<Vec<bool>, AllocError>
    requires made { made ≤ MOST }
    requires within { All (λ p. p.0 ≤ made) dead.now }
    ensures { IfOk result (λ v. (k : ℕ) → HasMark v.items k ↔ Contains (peer_numbers dead.now) k) }
{
    let mut marks = vec![in alloc; false; made as usize + 1]?;
    for p in dead {
        marks[p.0 as usize] = true;
    }
    Ok(marks)
}
