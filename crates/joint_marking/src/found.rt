// The peers that no joint root reaches.

ghost use Rattle.std.specs.Prelude.{◌≡◌, ℕ, ◌+◌, ◌++◌, ◌↔◌, ◌⊎◌, Contains, IfOk, OnOk, IsTrue, length, map};
ghost use Rattle.joint_machine.specs.Heaps.{IsLive};
ghost use Rattle.joint_machine.specs.Histories.{managed_numbers, peer_numbers};
ghost use Rattle.joint_machine.specs.Joint.{IsReachedIn, object, peer};
ghost use Rattle.joint_machine.specs.Replaying.{AreUnreached};
ghost use Rattle.joint_marking.specs.Nodes.{AreLive, IsLiveRoot, IsRootNode, IsUnmarkedPeer, node_count, objects_in};
ghost use Rattle.joint_marking.specs.Gathered.{RisesWith};

use crate::rows::{joint_rows, peer_node};
use crate::walked::JointWalked;
use joint_machine::{MNum, PNum};
use reachability::reached;
use std::alloc::{AllocError, Global};

/// The live peers that no joint root reaches, in rising order; each other live peer is reached. `objects` and
/// `peers` list the joint roots that are live, in any order. Answers `AllocError` where there is no memory.
pub fn unreached_peers<G: JointWalked>(
    alloc: Global,
    g: &G,
    objects: &[MNum],
    peers: &[PNum],
) -> Result<Vec<PNum>, AllocError>
    requires objects { (x : ℕ) → Contains (managed_numbers objects.now) x ↔ IsLiveRoot (G.graph g.now) (object x) }
    requires peers { (p : ℕ) → Contains (peer_numbers peers.now) p ↔ IsLiveRoot (G.graph g.now) (peer p) }
    ensures exact { IfOk result (λ v. AreUnreached (G.graph g.now) (peer_numbers v.items)) }
    ensures decides { IfOk result (λ v. (p : ℕ) → IsLive (G.graph g.now).peers.heap p
        → Contains (peer_numbers v.items) p ⊎ IsReachedIn (G.graph g.now) (peer p)) }
{
    let rows = joint_rows(alloc, g)?;
    let roots = root_nodes(alloc, g, objects, peers)?;
    let marks = reached(alloc, &rows, &roots)?;
    let dead = unmarked_peers(alloc, g, &marks)?;
    Ok(dead)
}

// The nodes of the live roots.
fn root_nodes<G: JointWalked>(
    alloc: Global,
    g: &G,
    objects: &[MNum],
    peers: &[PNum],
) -> Result<Vec<u32>, AllocError>
    requires objects { (x : ℕ) → Contains (managed_numbers objects.now) x ↔ IsLiveRoot (G.graph g.now) (object x) }
    requires peers { (p : ℕ) → Contains (peer_numbers peers.now) p ↔ IsLiveRoot (G.graph g.now) (peer p) }
    ensures { IfOk result (λ v. (k : ℕ) → Contains v.items k ↔ IsRootNode (G.graph g.now) k) }
{
    let mut nodes = Vec::new(alloc);
    push_objects(objects, &mut nodes)?;
    push_peers(g, peers, &mut nodes)?;
    Ok(nodes)
}

fn push_objects(objects: &[MNum], nodes: &mut Vec<u32>) -> Result<(), AllocError>
    ensures { OnOk result (nodes.new.items ≡ nodes.old.items ++ managed_numbers objects.now) }
{
    for x in objects {
        nodes.push(x.0)?;
    }
    Ok(())
}

fn push_peers<G: JointWalked>(g: &G, peers: &[PNum], nodes: &mut Vec<u32>) -> Result<(), AllocError>
    requires { AreLive (G.graph g.now) peers.now }
    ensures { OnOk result (nodes.new.items ≡ nodes.old.items ++ map (λ p. objects_in (G.graph g.now) + p.0) peers.now) }
{
    for p in peers {
        nodes.push(peer_node(g, *p))?;
    }
    Ok(())
}

// The live peers whose nodes aren't marked.
fn unmarked_peers<G: JointWalked>(
    alloc: Global,
    g: &G,
    marks: &[bool],
) -> Result<Vec<PNum>, AllocError>
    requires { length marks.now ≡ node_count (G.graph g.now) }
    ensures { IfOk result (λ v. RisesWith (IsUnmarkedPeer (G.graph g.now) marks.now) (peer_numbers v.items)) }
{
    let mut found = Vec::new(alloc);
    for p in 1..g.peers() + 1 {
        if is_unmarked(g, marks, PNum(p)) {
            found.push(PNum(p))?;
        }
    }
    Ok(found)
}

fn is_unmarked<G: JointWalked>(g: &G, marks: &[bool], p: PNum) -> bool
    requires { length marks.now ≡ node_count (G.graph g.now) }
    ensures { IsTrue result ↔ IsUnmarkedPeer (G.graph g.now) marks.now p.0 }
{
    g.is_live_peer(p) && !marks[peer_node(g, p) as usize]
}
