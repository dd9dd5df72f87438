//! Reads a placement.
ghost use Rattle.std.specs.Prelude.{◌≡◌, ◌+◌, ◌*◌, ◌≤◌, [], length, drop, unwrap_or, IfOk, IfErr, IfSome, OnOk, Ok, Some, None};
ghost use Rattle.std.specs.List.{All};
ghost use Rattle.text_scan.specs.Lines.{lines, words as line_words};
ghost use Rattle.text_scan.specs.ContentLines.{kept_from};
ghost use Rattle.code_semantics.specs.Suits.{IsFromTo, IsOfMesh, Suits};
ghost use Rattle.code_semantics.specs.NodeWords.{most_vars, words};
ghost use Rattle.placement_reader.specs.declared.form.Count.TheVariants.{Objects, Frames, Cells};
ghost use Rattle.run_types.specs.Routes.{without_route};
ghost use Rattle.run_types.specs.RoutedPlacements.{IsRouted};
ghost use Rattle.placement_reader.specs.Forms.{cuts_of, form_of, most, number_in, place_or_same, routes_of, spot_in};
ghost use Rattle.placement_reader.specs.ReaderFacts.{AreWellFormed, IsMeshLine, ReportsFault};
ghost use Rattle.placement_reader.specs.Placements.{connected, fault_in, first_fault, fitted, forms_of, mesh_fault, placement_of, places_of, value_of};

use crate::fault::PlacementFault;
use crate::form::{Count, Form, Spot, form_in};
use crate::forms::{number_in, spot_in};
use crate::judge::{is_from_one, judge};
use code_semantics::{ClassCode, Unit};
use run_types::{LinkId, List, Place, Placement, Route};
use std::alloc::{AllocError, Global};
use table_routing::{RoutedPlacement, TableFault};
use text_scan::{count_lines, next_content_line};

/// The largest number of words of memory of all nodes together.
const MOST_WORDS: u64 = 16777216;

/// The width and the height of a mesh.
#[derive(Clone, Copy)]
struct Mesh {
    width: u32,
    height: u32,
}

/// The mesh of the first content line, or the fault of that line.
fn mesh_in(unit: &Unit, number: u32, line: &[u8]) -> Result<Mesh, PlacementFault>
    ensures ok { IfOk result (λ m. IsMeshLine number (form_of unit.now (line_words line.now)) m) }
    ensures err { IfErr result (λ f. mesh_fault number (form_of unit.now (line_words line.now)) ≡ Some f) }
{
    match form_in(unit, line) {
        Some(Form::Mesh { width, height }) => {
            if !is_from_one(8, width) || !is_from_one(8, height) {
                return Err(PlacementFault::OutOfRange { line: number });
            }
            Ok(Mesh {
                width: width as u32,
                height: height as u32,
            })
        }
        _ => Err(PlacementFault::BadLine { line: number }),
    }
}

/// The forms of all lines from byte `from` on, which begins line `line`, or the fault of the first line that has one.
fn gather(
    alloc: Global,
    unit: &Unit,
    bytes: &[u8],
    from: usize,
    line: u32,
    width: u64,
    nodes: u64,
) -> Result<Vec<Form>, PlacementFault>
    requires width { 1 ≤ width }
    requires nodes { nodes ≤ 64 }
    requires within { from ≤ length bytes.now }
    requires small { length bytes.now ≤ 67108864 }
    requires few { line ≤ from + 1 }
    ensures fine { IfOk result (λ fs. AreWellFormed nodes fs.items) }
    ensures faultless { OnOk result (first_fault unit.now width nodes [] (kept_from line (lines (drop from bytes.now))) ≡ None) }
    ensures forms { IfOk result (λ fs. fs.items ≡ forms_of unit.now [] (kept_from line (lines (drop from bytes.now)))) }
    ensures fault { IfErr result (λ f. ReportsFault f (first_fault unit.now width nodes [] (kept_from line (lines (drop from bytes.now))))) }
{
    let mut forms = Vec::new(alloc);
    let mut at = from;
    let mut number = line;
    while let Some(found) = next_content_line(bytes, at, number) {
        let form = judge(
            unit,
            width,
            nodes,
            found.line,
            forms.as_slice(),
            &bytes[found.start..found.end],
        )?;
        match forms.push(form) {
            Ok(()) => {}
            Err(_) => return Err(PlacementFault::Memory),
        }
        at = found.next;
        number = found.line + 1;
    }
    Ok(forms)
}

/// The place of new objects of a class; `Same` if no line gives it.
fn place_in(class: usize, nodes: u64, forms: &[Form]) -> Place
    requires small { nodes ≤ 64 }
    requires fine { AreWellFormed nodes forms.now }
    ensures place { result ≡ place_or_same (spot_in class forms.now) }
    ensures there { IsOfMesh nodes result }
{
    match spot_in(class, forms) {
        Some(Spot::At(node)) => Place::At(node as u32),
        Some(Spot::Spread) => Place::Spread,
        Some(Spot::Same) => Place::Same,
        None => Place::Same,
    }
}

/// The places of all classes.
fn places_in(
    alloc: Global,
    count: usize,
    nodes: u64,
    forms: &[Form],
) -> Result<List<Place>, AllocError>
    requires small { nodes ≤ 64 }
    requires fine { AreWellFormed nodes forms.now }
    ensures places { IfOk result (λ ps. ps ≡ places_of count forms.now) }
{
    let mut places = List::make(alloc);
    for class in 0..count {
        match places.push(place_in(class, nodes, forms)) {
            Ok(()) => {}
            Err(_) => return Err(AllocError),
        }
    }
    Ok(places)
}

/// The cut links.
fn cuts_in(alloc: Global, nodes: u64, forms: &[Form]) -> Result<List<LinkId>, AllocError>
    requires small { nodes ≤ 64 }
    requires fine { AreWellFormed nodes forms.now }
    ensures { IfOk result (λ ks. ks ≡ cuts_of forms.now) }
{
    let mut cuts = List::make(alloc);
    for form in forms {
        match *form {
            Form::Cut { from, to } => {
                cuts.push(LinkId {
                    from: from as u32,
                    to: to as u32,
                })?;
            }
            _ => {}
        }
    }
    Ok(cuts)
}

/// The routes.
fn routes_in(alloc: Global, nodes: u64, forms: &[Form]) -> Result<List<Route>, AllocError>
    requires small { nodes ≤ 64 }
    requires fine { AreWellFormed nodes forms.now }
    ensures { IfOk result (λ rs. rs ≡ routes_of forms.now) }
{
    let mut routes = List::make(alloc);
    for form in forms {
        match *form {
            Form::Routed { at, goal, next } => {
                routes.push(Route {
                    at: at as u32,
                    goal: goal as u32,
                    next: next as u32,
                })?;
            }
            _ => {}
        }
    }
    Ok(routes)
}

/// The number of a kind, or `absent` if no line gives it.
fn number_or(kind: Count, forms: &[Form], absent: u32) -> u32
    requires absent { IsFromTo 1 (most kind) absent }
    requires fine { IfSome (number_in kind forms.now) (λ n. IsFromTo 1 (most kind) n) }
    ensures number { result ≡ unwrap_or (number_in kind forms.now) absent }
    ensures within { IsFromTo 1 (most kind) result }
{
    match number_in(kind, forms) {
        Some(number) => number as u32,
        None => absent,
    }
}

/// The placement of the forms of all lines.
fn placement_in(
    alloc: Global,
    unit: &Unit,
    mesh: Mesh,
    forms: &[Form],
) -> Result<Placement, AllocError>
    requires width { IsFromTo 1 8 mesh.width }
    requires height { IsFromTo 1 8 mesh.height }
    requires fine { AreWellFormed (mesh.width * mesh.height) forms.now }
    ensures value { IfOk result (λ p. p ≡ value_of unit.now mesh.width mesh.height forms.now) }
    ensures objects { IfOk result (λ p. IsFromTo 1 4096 p.objects) }
    ensures frames { IfOk result (λ p. IsFromTo 1 16384 p.frames) }
    ensures cells { IfOk result (λ p. IsFromTo 1 16384 p.cells) }
{
    let nodes = u64::from(mesh.width * mesh.height);
    let objects = number_or(Count::Objects, forms, 256);
    let frames = number_or(Count::Frames, forms, 1024);
    let cells = number_or(Count::Cells, forms, 1024);
    let places = places_in(alloc, unit.classes.items().len(), nodes, forms)?;
    let cuts = cuts_in(alloc, nodes, forms)?;
    let routes = routes_in(alloc, nodes, forms)?;
    Ok(Placement {
        width: mesh.width,
        height: mesh.height,
        objects,
        frames,
        cells,
        places,
        cuts,
        routes,
    })
}

/// The largest number of variables of a class.
fn most_vars(classes: &[ClassCode]) -> u32
    ensures { result ≡ most_vars classes.now }
{
    let mut most = 0;
    for class in classes {
        if class.vars > most {
            most = class.vars;
        }
    }
    most
}

/// The words of memory that the nodes need, with `vars` variables for each object.
fn words(placement: &Placement, vars: u32) -> u64
    requires width { IsFromTo 1 8 placement.now.width }
    requires height { IsFromTo 1 8 placement.now.height }
    requires objects { IsFromTo 1 4096 placement.now.objects }
    requires frames { IsFromTo 1 16384 placement.now.frames }
    requires cells { IsFromTo 1 16384 placement.now.cells }
    ensures { result ≡ words placement.now vars }
{
    let nodes = u64::from(placement.width * placement.height);
    let objects = u64::from(placement.objects) * u64::from(vars);
    let others = u64::from(placement.frames) * 96 + u64::from(placement.cells) * 24;
    nodes * (objects + others)
}

/// Makes the routes of a placement. Reports the first pair of nodes that has no route, or out of memory.
fn routed(alloc: Global, placement: Placement) -> Result<RoutedPlacement, PlacementFault>
    requires { IsRouted placement }
    ensures ok { IfOk result (λ p. (p ≡ placement) × (without_route placement ≡ None)) }
    ensures err { IfErr result (λ f. ReportsFault f (fault_in (connected (without_route placement) placement))) }
{
    match RoutedPlacement::make(alloc, placement) {
        Ok(routed) => Ok(routed),
        Err(TableFault::NoRoute { from, to }) => Err(PlacementFault::NoRoute { from, to }),
        Err(TableFault::Memory) => Err(PlacementFault::Memory),
    }
}

/// Parses a placement, of at most 67,108,864 bytes, for the classes of a unit, and makes its routes. Returns the first
/// fault of the text, or `Memory` if memory runs out.
pub fn read_routed(
    alloc: Global,
    bytes: &[u8],
    unit: &Unit,
) -> Result<RoutedPlacement, PlacementFault>
    requires { length bytes.now ≤ 67108864 }
    ensures ok { IfOk result (λ p. placement_of unit.now bytes.now ≡ Ok p) }
    ensures suits { IfOk result (λ p. Suits p unit.now) }
    ensures err { IfErr result (λ f. ReportsFault f (fault_in (placement_of unit.now bytes.now))) }
{
    let Some(first) = next_content_line(bytes, 0, 1) else {
        return Err(PlacementFault::BadLine {
            line: count_lines(bytes) + 1,
        });
    };
    // A `match` instead of `?` keeps the clause of the error.
    let mesh = match mesh_in(unit, first.line, &bytes[first.start..first.end]) {
        Ok(mesh) => mesh,
        Err(fault) => return Err(fault),
    };
    let nodes = u64::from(mesh.width * mesh.height);
    let width = u64::from(mesh.width);
    let forms = gather(alloc, unit, bytes, first.next, first.line + 1, width, nodes)?;
    let placement = placement_in(alloc, unit, mesh, forms.as_slice())?;
    let words = words(&placement, most_vars(unit.classes.items()));
    if words > MOST_WORDS {
        drop(placement);
        return Err(PlacementFault::TooLarge { words });
    }
    match routed(alloc, placement) {
        Ok(routed) => Ok(routed),
        Err(fault) => Err(fault),
    }
}

/// Parses a placement, of at most 67,108,864 bytes, for the classes of a unit. Returns the placement, which fits the
/// unit, or the first fault of the text, or `Memory` if memory runs out.
pub fn read_placement(alloc: Global, bytes: &[u8], unit: &Unit) -> Result<Placement, PlacementFault>
    requires { length bytes.now ≤ 67108864 }
    ensures ok { IfOk result (λ p. placement_of unit.now bytes.now ≡ Ok p) }
    ensures suits { IfOk result (λ p. Suits p unit.now) }
    ensures err { IfErr result (λ f. ReportsFault f (fault_in (placement_of unit.now bytes.now))) }
{
    match read_routed(alloc, bytes, unit) {
        Ok(routed) => Ok(routed.into_placement()),
        Err(fault) => Err(fault),
    }
}
