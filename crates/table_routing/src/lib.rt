//! The routing table of a placement with routes and cut links, or the first pair of nodes without a route.
//!
//! Does not know: packets.
#![tactic(auto)]

mod fault;
mod held;
mod routed;
mod routes;
mod table;

pub use fault::TableFault;
pub use routed::RoutedPlacement;
pub use table::Table;
