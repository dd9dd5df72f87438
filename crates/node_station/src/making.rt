//! A station before its first input.
ghost use Rattle.std.specs.Prelude.{◌≡◌, ◌<◌, ◌≤◌, ◌*◌, ℕ, Some, IfOk, replicate, slice_get};
ghost use Rattle.code_semantics.specs.Proper.{IsProper};
ghost use Rattle.code_semantics.specs.Suits.{Suits};
ghost use Rattle.mesh_semantics.specs.Record.{last_place, root_node};
ghost use Rattle.mesh_of_code.specs.Coded.{Placed, coded};
ghost use Rattle.node_semantics.specs.Machine.{Machine, machine_start};
ghost use Rattle.station_semantics.specs.Station.{Station as OneStation};
ghost use Rattle.station_semantics.specs.Whole.{apart};
ghost use Rattle.node_station.specs.StationOf.{station_of};
ghost use Rattle.node_station.specs.Parts.{IsFirst, IsStation, view_of};

use crate::parts::StationParts;
use code_semantics::Unit;
use mesh_routing::{Links, Mesh};
use pool_node::Node;
use run_types::Place;
use std::alloc::{AllocError, Global};
use table_routing::Table;

/// The node of this place, or node 0 if the place has no node.
fn node_of_place(place: &Place) -> u32
    ensures { result ≡ root_node (Some place.now) }
{
    match *place {
        Place::At(node) => node,
        Place::Same | Place::Spread => 0,
    }
}

/// The node of the root object: the place of the last class, or node 0 if that has no node.
fn root_of(places: &[Place]) -> u32
    ensures { result ≡ root_node (last_place places.now) }
{
    match places.last() {
        Some(place) => node_of_place(place),
        None => 0,
    }
}

/// Makes the node of this number at the start of a run: without objects, or with the root object.
fn first_node(alloc: Global, unit: &Unit, table: &Table<'_>, id: u32) -> Result<Node, AllocError>
    requires proper { IsProper unit.now }
    requires suits { Suits table.now unit.now }
    requires id { id < table.now.width * table.now.height }
    ensures { IfOk result (IsFirst unit.now table.now id) }
{
    let placement = table.placement();
    let mut node = Node::make(alloc, unit, placement, id)?;
    let root = root_of(placement.places.items());
    if root == id {
        let _ = node.start_root(unit);
    }
    Ok(node)
}

/// A count of 0 for each node.
fn zeros(alloc: Global, nodes: u32) -> Result<Vec<u64>, AllocError>
    ensures { IfOk result (λ counts. counts.items ≡ replicate nodes 0) }
{
    vec![in alloc; 0u64; nodes as usize]
}

/// Makes the parts of a station, and allocates all memory of a run. Returns `Err` if memory runs out.
pub(crate) fn parts_of<'a>(
    alloc: Global,
    unit: &'a Unit,
    table: Table<'a>,
    id: u32,
    quantum: u32,
) -> Result<StationParts<'a>, AllocError>
    requires proper { IsProper unit.now }
    requires suits { Suits table unit.now }
    requires id { id < table.width * table.height }
    requires quantum { 1 ≤ quantum }
    ensures whole { IfOk result IsStation }
    ensures unit { IfOk result (λ p. p.unit.now ≡ unit.now) }
    ensures placement { IfOk result (λ p. p.table ≡ table.entry) }
    ensures quantum { IfOk result (λ p. p.quantum ≡ quantum) }
    ensures id { IfOk result (λ p. p.id ≡ id) }
    ensures first { IfOk result (λ p. (m : Machine Placed) → machine_start (coded unit.now) table.entry ≡ Some m → slice_get (apart m).stations id ≡ Some (station_of (view_of p))) }
{
    let placement = table.placement();
    let nodes = placement.width * placement.height;
    let mesh = Mesh::make(placement.width, placement.height);
    let node = first_node(alloc, unit, &table, id)?;
    let links = Links::make(alloc, &mesh, placement.cells)?;
    let acked = zeros(alloc, nodes)?;
    let handed = zeros(alloc, nodes)?;
    Ok(StationParts {
        unit,
        table,
        quantum,
        id,
        node,
        links,
        acked,
        handed,
        steps: 0,
        made: 0,
    })
}
