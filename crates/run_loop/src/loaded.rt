//! The inputs of a run.
use code_semantics::Unit;
use schedule_reader::Schedule;
use table_routing::RoutedPlacement;

/// The code of a program, a placement of its classes with its routes, and a schedule on the placement's mesh.
#[derive(Drop)]
pub struct Loaded {
    pub unit: Unit,
    pub placement: RoutedPlacement,
    pub schedule: Schedule,
}
