// The joint marking of a bridge cycle: which live peers no joint root reaches, over the one graph that joins the
// managed objects, the peers and the handles between them.
//
// What is marked has the trait [`JointWalked`]: read-only looks at both heaps, and for each managed object its twin,
// the live peer of the handle that it holds. The caller also lists the joint roots: the live objects that managed slots
// name, and the live peers that peer slots, raw strong handles and loose held handles name. [`unreached_peers`] then
// answers the peers that a joint sweep frees.
//
// A twin leads to its object too, but no heap knows that way: a handle is kept with the object alone. So the marking
// first lists what each row leads to:
//
//     node 0       no row
//     node x       the managed object x: its fields, and its twin
//     node n + p   the peer p: its fields, and each object whose twin it is
//
// with n managed objects. A freed row leads nowhere, and nothing leads to it. These lists take memory in proportion to
// the fields and handles. One marking of the nodes (`reachability::reached`) then marks exactly the nodes of the
// reached rows, and what is left of the live peers is the answer.
//
// The caller has both heaps in hand, and nobody changes them meanwhile. What is promised: the answer is exactly the
// live peers that no joint root reaches, in rising order, or want of memory.
#![tactic(auto)]

mod found;
mod rows;
mod walked;

pub use found::unreached_peers;
pub use walked::JointWalked;
