// Components of bridge nodes and the cross-references between them, as the bridge's client gets them.
//
// Two components, of which the first refers to the second:
//
//     let mut builder = ComponentsBuilder::new(alloc);
//     let a = builder.component(&[1, 2])?;
//     let b = builder.component(&[5])?;
//     builder.add(a, b)?;
//     let components = builder.finish()?;
//
// The analysis makes a `ComponentsBuilder`, lists the components in the order of their first members with `component`,
// and their cross-references with `add`, or with `add_all` where those of one source come together. Components without
// members, which stand for classes of nodes without peers, are listed behind them with `bridgeless`. `finish` orders
// the pairs and gives `Components`, which is only read: by its lists (`objs`, `xref`), and as the references that the
// peer heap has to mirror (`refs`, `mirror_edge`).
//
// Members lie in one flat list, with the place where each component begins. The circles of the components are kept as
// edges, so that each mirror edge is found in one step. `add` looks a pair up in a set; `add_all` needs no look-up,
// since nothing from its source is there.
//
// A value is its maker's own, and nobody changes it while it is read. What is promised: components and pairs are those
// that were listed, in their one order, and the mirror edges are the definition's function of them.
#![tactic(auto)]

mod circles;
mod components;
mod faults;
mod pairs;

pub use components::{Components, ComponentsBuilder, End};
pub use faults::ListingFault;
pub use pairs::Added;
