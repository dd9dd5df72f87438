//! The mesh of nodes, and a queue for each link between neighbours.
//!
//! Does not know: the content of packets.
#![tactic(auto)]

mod beside;
mod links;
mod mesh;

pub use beside::are_neighbours;
pub use links::Links;
pub use mesh::Mesh;
