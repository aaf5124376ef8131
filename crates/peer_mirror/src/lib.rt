// The references that a bridge cycle adds between peers.
//
// Behind the contraction, and once all handles are restored:
//
//     let references = install(side, draw, index, cycle, snap, &graph, &components)?;
//     ..
//     clear(side, draw, index, cycle);
//
// The bridge contracts the dead part of the managed heap to components and cross-references, and mirrors them in the
// peer heap, so that the peer heap's collector sees what the managed heap's edges say: the peers of a component lie on
// a circle of references, and each cross-reference is one between the peers of the first members. A component without
// members has no peer: a temporary stands for it, which the references of its pairs lead to and from. `install` adds
// exactly these references, all at once, as one entry of the driver. Once the handles were weakened, the peers were
// marked and swept, and the handles were restored, `clear` removes them all, as another one.
//
// A reference waits until all of them stand together: no marking follows one before. All memory is taken first, for the
// whole cycle.
//
// Each of the two calls has the peer side in hand by `&mut`; between them others may have made entries. What is
// promised: the references are exactly the mirror edges of the components, each call is one lawful entry of the driver,
// or for want of memory `install` changes nothing, and no peer changes.
#![tactic(auto)]

mod clearing;
mod installing;

pub use clearing::clear;
pub use installing::install;
