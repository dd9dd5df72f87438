//! The routes of a placement: the next node for each node and goal.
ghost use Rattle.std.specs.Prelude.{◌≡◌, ◌≢◌, ◌<◌, ◌≤◌, ◌*◌, ◌+◌, [], length, get_or, set, false, None, IfOk, IfErr};
ghost use Rattle.std.specs.List.{range_with_len};
ghost use Rattle.run_types.specs.Paths.{is_cut, toward};
ghost use Rattle.run_types.specs.Routes.{broken_to, is_broken, without_route};
ghost use Rattle.run_types.specs.RoutedPlacements.{IsRouted};
ghost use Rattle.table_routing.specs.Tables.{AreGaps, AreNexts, ReportsFault, size, with_routes};

use crate::fault::TableFault;
use mesh_routing::Mesh;
use run_types::{LinkId, Placement, Route};
use std::alloc::{AllocError, Global};

/// The routes of a placement.
#[derive(Drop)]
pub(crate) struct Routes {
    pub mesh: Mesh,
    // The next node from `at` to `to` is at index `at` times the number of nodes, plus `to`.
    pub nexts: Vec<u32>,
}

/// Reports whether the link is cut.
pub(crate) fn is_cut(cuts: &[LinkId], from: u32, to: u32) -> bool
    ensures { result ≡ is_cut cuts.now from to }
{
    for cut in cuts {
        if cut.from == from && cut.to == to {
            return true;
        }
    }
    false
}

/// The next node by dimension-order routing, which ignores routes and cuts.
fn way(mesh: &Mesh, at: u32, to: u32) -> u32
    requires at { at < mesh.now.width * mesh.now.height }
    requires to { to < mesh.now.width * mesh.now.height }
    ensures { at ≢ to → result ≡ toward mesh.now.width at to }
{
    match mesh.next(at, to) {
        Some(next) => next,
        None => at,
    }
}

/// The next node for each node and goal, without the placement's routes.
fn ways_of(alloc: Global, placement: &Placement, mesh: &Mesh) -> Result<Vec<u32>, AllocError>
    requires width { mesh.now.width ≡ placement.now.width }
    requires height { mesh.now.height ≡ placement.now.height }
    ensures { IfOk result (λ ns. AreNexts (with_routes placement.now []) (size placement.now * size placement.now) ns.items) }
{
    let nodes = placement.width * placement.height;
    let mut nexts = Vec::new(alloc);
    for place in 0..nodes * nodes {
        let next = way(mesh, place / nodes, place % nodes);
        match nexts.push(next) {
            Ok(()) => {}
            Err(_) => return Err(AllocError),
        }
    }
    Ok(nexts)
}

/// Sets the next node that a route gives.
#[tactic(auto, using(crate::proofs::Places::below))]
fn put_route(nexts: &mut Vec<u32>, nodes: u32, route: Route)
    requires few { nodes ≤ 64 }
    requires at { route.at < nodes }
    requires goal { route.goal < nodes }
    requires length { length nexts.old.items ≡ nodes * nodes }
    ensures { nexts.new.items ≡ set nexts.old.items (route.at * nodes + route.goal) route.next }
{
    nexts[(route.at * nodes + route.goal) as usize] = route.next;
}

/// Sets the next nodes that the routes give. Of two routes with the same node and goal, the first counts.
fn put_routes(nexts: &mut Vec<u32>, placement: &Placement)
    requires routed { IsRouted placement.now }
    requires nexts { AreNexts (with_routes placement.now []) (size placement.now * size placement.now) nexts.old.items }
    ensures { AreNexts placement.now (size placement.now * size placement.now) nexts.new.items }
{
    let nodes = placement.width * placement.height;
    let routes = placement.routes.items();
    for i in (0..routes.len()).rev() {
        put_route(nexts, nodes, routes[i]);
    }
}

/// For each two nodes, whether the link from the one to the other is cut.
fn gaps_of(alloc: Global, placement: &Placement) -> Result<Vec<bool>, AllocError>
    requires routed { IsRouted placement.now }
    ensures { IfOk result (λ gs. AreGaps placement.now (size placement.now * size placement.now) gs.items) }
{
    let nodes = placement.width * placement.height;
    let mut gaps = Vec::new(alloc);
    for place in 0..nodes * nodes {
        let gap = is_cut(placement.cuts.items(), place / nodes, place % nodes);
        match gaps.push(gap) {
            Ok(()) => {}
            Err(_) => return Err(AllocError),
        }
    }
    Ok(gaps)
}

/// Reports whether the link from the one node to the other is cut.
#[tactic(auto, using(crate::proofs::Places::below))]
fn is_gap(gaps: &[bool], nodes: u32, from: u32, to: u32) -> bool
    requires few { nodes ≤ 64 }
    requires from { from < nodes }
    requires to { to < nodes }
    requires length { length gaps.now ≡ nodes * nodes }
    ensures { result ≡ get_or gaps.now (from * nodes + to) false }
{
    gaps[(from * nodes + to) as usize]
}

/// Reports whether the path from a node to another one uses a cut link, or visits a node twice. It follows at most as
/// many links as there are nodes.
fn is_broken(placement: &Placement, nexts: &[u32], gaps: &[bool], from: u32, to: u32) -> bool
    requires routed { IsRouted placement.now }
    requires nexts { AreNexts placement.now (size placement.now * size placement.now) nexts.now }
    requires gaps { AreGaps placement.now (size placement.now * size placement.now) gaps.now }
    requires from { from < placement.now.width * placement.now.height }
    requires to { to < placement.now.width * placement.now.height }
    ensures { result ≡ is_broken placement.now from to }
{
    let nodes = placement.width * placement.height;
    let mut at = from;
    for step in 0..nodes {
        if at == to {
            return false;
        }
        let next = nexts[(at * nodes + to) as usize];
        if is_gap(gaps, nodes, at, next) {
            return true;
        }
        at = next;
    }
    true
}

/// The first pair from this node that has no route.
fn broken_to(placement: &Placement, nexts: &[u32], gaps: &[bool], from: u32) -> Option<(u32, u32)>
    requires routed { IsRouted placement.now }
    requires nexts { AreNexts placement.now (size placement.now * size placement.now) nexts.now }
    requires gaps { AreGaps placement.now (size placement.now * size placement.now) gaps.now }
    requires from { from < placement.now.width * placement.now.height }
    ensures { result ≡ broken_to placement.now from (range_with_len 0 (placement.now.width * placement.now.height)) }
{
    for to in 0..placement.width * placement.height {
        if is_broken(placement, nexts, gaps, from, to) {
            return Some((from, to));
        }
    }
    None
}

/// The first pair of nodes that has no route.
fn without_route(placement: &Placement, nexts: &[u32], gaps: &[bool]) -> Option<(u32, u32)>
    requires routed { IsRouted placement.now }
    requires nexts { AreNexts placement.now (size placement.now * size placement.now) nexts.now }
    requires gaps { AreGaps placement.now (size placement.now * size placement.now) gaps.now }
    ensures { result ≡ without_route placement.now }
{
    for from in 0..placement.width * placement.height {
        match broken_to(placement, nexts, gaps, from) {
            Some(pair) => return Some(pair),
            None => {}
        }
    }
    None
}

impl Routes {
    ghost use Rattle.table_routing.specs.RoutesOf.{AreRoutesOf};

    /// Makes the routes of a placement whose routes and cuts are links of its mesh. Returns `NoRoute` with the first
    /// pair of nodes that has no route, or `Memory` if memory runs out.
    pub(crate) fn make(alloc: Global, placement: &Placement) -> Result<Routes, TableFault>
        requires routed { IsRouted placement.now }
        ensures ok { IfOk result (λ r. AreRoutesOf placement.now r) }
        ensures err { IfErr result (λ f. ReportsFault f (without_route placement.now)) }
    {
        let mesh = Mesh::make(placement.width, placement.height);
        let mut nexts = ways_of(alloc, placement, &mesh)?;
        put_routes(&mut nexts, placement);
        let gaps = gaps_of(alloc, placement)?;
        match without_route(placement, nexts.as_slice(), gaps.as_slice()) {
            Some((from, to)) => Err(TableFault::NoRoute { from, to }),
            None => Ok(Routes { mesh, nexts }),
        }
    }
}
