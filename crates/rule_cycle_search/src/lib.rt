//! Which nodes of a graph of numbers lead back to themselves, and by which way, in time linear in the references.
//!
//! For the layer above: `find_cycles` answers for each root of a `Graph`; `specs/Graph.antt` says what the answers mean.
//!
//! Nodes that lead to each other are one part, named by one of its nodes, its center. `parts.rt` finds the parts; each
//! node then has a step towards the center and one back from it. `ways.rt` follows these.
//!
//! Begin with `graph.rt` and `parts.rt`.
#![tactic(auto)]

mod depths;
mod found;
mod graph;
mod order;
mod parts;
mod referrers;
mod spread;
mod steps;
mod ways;

pub use found::{Found, find_cycles};
pub use graph::Graph;
