// Laws on the components of any graph and their mirror edges.

ghost use Rattle.std.specs.Prelude.{ℕ};
ghost use Rattle.joint_laws.specs.Mirrors.{MirrorEdgesFollowWalks, WalksFollowMirrorEdges};

/// A graph whose nodes are numbers: which of them are bridge nodes, and which lead to which.
pub trait EdgeGraph {
    ghost bridge: { ℕ → Type 0 };

    ghost edge: { ℕ → ℕ → Type 0 };
}

/// A mirror edge joins bridge nodes, and wherever it leads from one to another, so does a walk of the graph.
pub fn mirror_edges_follow_walks<G: EdgeGraph>()
    ensures { MirrorEdgesFollowWalks G.bridge G.edge }
{}

/// Wherever a walk of the graph leads from one bridge node to another, so does a walk over mirror edges.
pub fn walks_follow_mirror_edges<G: EdgeGraph>()
    ensures { WalksFollowMirrorEdges G.bridge G.edge }
{}
