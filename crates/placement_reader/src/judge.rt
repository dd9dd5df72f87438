//! The check of a line.
ghost use Rattle.std.specs.Prelude.{◌≡◌, ◌≤◌, ◌<◌, ◌∷◌, IfOk, IfErr, Some, None};
ghost use Rattle.text_scan.specs.Lines.{words};
ghost use Rattle.placement_reader.specs.declared.form.Form.TheVariants.{Counted, Cut, Placed, Routed};
ghost use Rattle.placement_reader.specs.Forms.{fault_of, fault_or_bad, form_of, is_from_one, is_there, most};
ghost use Rattle.placement_reader.specs.ReaderFacts.{IsWellFormed};

use crate::fault::PlacementFault;
use crate::form::{Count, Form, Spot, form_in};
use crate::forms::{is_cut, number_in, route_in, spot_in};
use code_semantics::Unit;
use mesh_routing::are_neighbours;

/// The largest number of a kind, for each node.
pub fn most(kind: Count) -> u64
    ensures { result ≡ most kind }
{
    match kind {
        Count::Objects => 4096,
        Count::Frames => 16384,
        Count::Cells => 16384,
    }
}

/// Reports whether `number` is from 1 to `high`.
pub fn is_from_one(high: u64, number: u64) -> bool
    ensures { result ≡ is_from_one high number }
{
    1 <= number && number <= high
}

fn is_there(nodes: u64, spot: Spot) -> bool
    ensures { result ≡ is_there nodes spot }
{
    match spot {
        Spot::At(node) => node < nodes,
        Spot::Same => true,
        Spot::Spread => true,
    }
}

fn count_fault(
    width: u64,
    nodes: u64,
    line: u32,
    earlier: &[Form],
    kind: Count,
    number: u64,
) -> Option<PlacementFault>
    ensures { result ≡ fault_of width nodes line earlier.now (Counted kind number) }
{
    if number_in(kind, earlier).is_some() {
        return Some(PlacementFault::Repeated { line });
    }
    if !is_from_one(most(kind), number) {
        return Some(PlacementFault::OutOfRange { line });
    }
    None
}

fn place_fault(
    width: u64,
    nodes: u64,
    line: u32,
    earlier: &[Form],
    class: Option<usize>,
    spot: Spot,
) -> Option<PlacementFault>
    ensures { result ≡ fault_of width nodes line earlier.now (Placed class spot) }
{
    let Some(place) = class else {
        return Some(PlacementFault::UnknownClass { line });
    };
    if spot_in(place, earlier).is_some() {
        return Some(PlacementFault::Repeated { line });
    }
    if !is_there(nodes, spot) {
        return Some(PlacementFault::NoSuchNode { line });
    }
    None
}

fn cut_fault(
    width: u64,
    nodes: u64,
    line: u32,
    earlier: &[Form],
    from: u64,
    to: u64,
) -> Option<PlacementFault>
    requires width { 1 ≤ width }
    requires nodes { nodes ≤ 64 }
    ensures { result ≡ fault_of width nodes line earlier.now (Cut from to) }
{
    if is_cut(from, to, earlier) {
        return Some(PlacementFault::Repeated { line });
    }
    if from >= nodes || to >= nodes {
        return Some(PlacementFault::NoSuchNode { line });
    }
    if !are_neighbours(width, from, to) {
        return Some(PlacementFault::NoSuchLink { line });
    }
    None
}

fn route_fault(
    width: u64,
    nodes: u64,
    line: u32,
    earlier: &[Form],
    at: u64,
    goal: u64,
    next: u64,
) -> Option<PlacementFault>
    requires width { 1 ≤ width }
    requires nodes { nodes ≤ 64 }
    ensures { result ≡ fault_of width nodes line earlier.now (Routed at goal next) }
{
    if route_in(at, goal, earlier).is_some() {
        return Some(PlacementFault::Repeated { line });
    }
    if at >= nodes || goal >= nodes || next >= nodes {
        return Some(PlacementFault::NoSuchNode { line });
    }
    if goal == at {
        return Some(PlacementFault::OutOfRange { line });
    }
    if !are_neighbours(width, at, next) {
        return Some(PlacementFault::NoSuchLink { line });
    }
    None
}

/// The fault of a form after the mesh line and after the forms `earlier`, in a mesh of this width and this number of
/// nodes.
fn fault_of(
    width: u64,
    nodes: u64,
    line: u32,
    earlier: &[Form],
    form: Form,
) -> Option<PlacementFault>
    requires width { 1 ≤ width }
    requires nodes { nodes ≤ 64 }
    ensures { result ≡ fault_of width nodes line earlier.now form }
{
    match form {
        Form::Mesh { .. } => Some(PlacementFault::Repeated { line }),
        Form::Counted { kind, number } => count_fault(width, nodes, line, earlier, kind, number),
        Form::Placed { class, spot } => place_fault(width, nodes, line, earlier, class, spot),
        Form::Cut { from, to } => cut_fault(width, nodes, line, earlier, from, to),
        Form::Routed { at, goal, next } => {
            route_fault(width, nodes, line, earlier, at, goal, next)
        }
    }
}

/// The form of a line after the mesh line, or its fault. Requires a positive width and at most 64 nodes.
pub fn judge(
    unit: &Unit,
    width: u64,
    nodes: u64,
    number: u32,
    earlier: &[Form],
    line: &[u8],
) -> Result<Form, PlacementFault>
    requires width { 1 ≤ width }
    requires nodes { nodes ≤ 64 }
    ensures form { IfOk result (λ f. form_of unit.now (words line.now) ≡ Some f) }
    ensures fine { IfOk result (λ f. IsWellFormed nodes f) }
    ensures ok { IfOk result (λ f. fault_or_bad width nodes number earlier.now (form_of unit.now (words line.now)) ≡ None) }
    ensures err { IfErr result (λ f. fault_or_bad width nodes number earlier.now (form_of unit.now (words line.now)) ≡ Some f) }
{
    let Some(form) = form_in(unit, line) else {
        return Err(PlacementFault::BadLine { line: number });
    };
    match fault_of(width, nodes, number, earlier, form) {
        Some(fault) => Err(fault),
        None => Ok(form),
    }
}
