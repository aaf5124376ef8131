// What a picture is made of.

ghost use Rattle.std.specs.Prelude.{◌≡◌};

use joint_machine::{Kind, Sort};
use std::marker::Model;

/// One of the two heaps.
#[derive(Clone, Copy, PartialEq, Eq, Debug)]
pub enum Side {
    Managed,
    Peers,
}

/// A list of slots.
#[derive(Clone, Copy, PartialEq, Eq, Debug)]
pub enum Slots {
    ManagedVars,
    ManagedStatics,
    Pins,
    PeerVars,
    PeerStatics,
    Names,
}

/// Where an arrow begins or ends: a node, a handle, the slot with that place in its list, or the temporary of a heavy
/// class.
#[derive(Clone, Copy, PartialEq, Eq, Debug)]
pub enum Spot {
    Object(u32),
    Peer(u32),
    Handle(u32),
    Slot(Slots, u32),
    Temporary(u32),
}

/// How a handle is drawn: strong, weak, cleared since its peer was freed, or as one that has left the table.
#[derive(Clone, Copy, PartialEq, Eq, Debug)]
pub enum Style {
    Full,
    Weak,
    Cleared,
    Gone,
}

/// An arrow. `Field`: field `i` of an object holds another. `Held`: the handle that managed object `m` holds leads to
/// peer `p`, which belongs to it. `Faded`: the handle that `m` holds leads to no peer any more. `Names`: a slot.
/// `Grips`: a handle that no managed object holds leads to peer `p`; `Stub`: to none any more. `Refers`: a reference
/// that a cycle added.
#[derive(Clone, Copy, PartialEq, Eq, Debug)]
pub enum Arrow {
    Field {
        from: Spot,
        i: usize,
        to: Spot,
    },
    Held {
        m: u32,
        h: u32,
        p: u32,
        style: Style,
    },
    Faded {
        m: u32,
        h: u32,
        style: Style,
    },
    Names {
        from: Spot,
        to: Spot,
    },
    Grips {
        h: u32,
        p: u32,
        style: Style,
    },
    Stub {
        h: u32,
    },
    Refers {
        from: Spot,
        to: Spot,
    },
}

/// The node of a managed object.
#[derive(Clone, Copy, PartialEq, Eq, Debug)]
pub struct ObjectNode {
    pub m: u32,
    pub kind: Option<Kind>,
}

/// The node of a peer.
#[derive(Clone, Copy, PartialEq, Eq, Debug)]
pub struct PeerNode {
    pub p: u32,
    pub sort: Sort,
}

/// A picture: the nodes of both heaps, which of the managed ones are dead and which are candidates, and the arrows.
#[derive(Drop)]
pub struct Picture {
    pub(crate) objects: Vec<ObjectNode>,
    pub(crate) peers: Vec<PeerNode>,
    pub(crate) dead: Vec<u32>,
    pub(crate) candidates: Vec<u32>,
    pub(crate) arrows: Vec<Arrow>,
}

impl Model for Picture {
    ghost use Rattle.heap_pictures.specs.Pictures.{Drawing};

    ghost Value = { Drawing };

    ghost view = { λ p. record {
      objects = p.objects.items;
      peers = p.peers.items;
      dead = p.dead.items;
      candidates = p.candidates.items;
      arrows = p.arrows.items;
    } };
}

impl Picture {
    /// The picture with these nodes, of which these are dead and these are candidates, and these arrows.
    pub fn of(
        objects: Vec<ObjectNode>,
        peers: Vec<PeerNode>,
        dead: Vec<u32>,
        candidates: Vec<u32>,
        arrows: Vec<Arrow>,
    ) -> Picture
        ensures { result ≡ record {
          objects = objects.items;
          peers = peers.items;
          dead = dead.items;
          candidates = candidates.items;
          arrows = arrows.items;
        } }
    {
        Picture {
            objects,
            peers,
            dead,
            candidates,
            arrows,
        }
    }

    /// The nodes of the managed objects.
    pub fn objects(&self) -> &[ObjectNode]
        ensures { result.now ≡ self.now.objects }
    {
        self.objects.as_slice()
    }

    /// The nodes of the peers.
    pub fn peers(&self) -> &[PeerNode]
        ensures { result.now ≡ self.now.peers }
    {
        self.peers.as_slice()
    }

    /// The managed objects of the open cycle's dead part.
    pub fn dead(&self) -> &[u32]
        ensures { result.now ≡ self.now.dead }
    {
        self.dead.as_slice()
    }

    /// The open cycle's candidates.
    pub fn candidates(&self) -> &[u32]
        ensures { result.now ≡ self.now.candidates }
    {
        self.candidates.as_slice()
    }

    /// The arrows.
    pub fn arrows(&self) -> &[Arrow]
        ensures { result.now ≡ self.now.arrows }
    {
        self.arrows.as_slice()
    }
}
