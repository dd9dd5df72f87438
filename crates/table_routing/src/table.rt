//! The routing table of a placement.
ghost use Rattle.std.specs.Prelude.{◌≡◌, ◌<◌, ◌*◌, ◌↔◌, None, IsNone, IsTrue, IfOk, IfErr, IfSome};
ghost use Rattle.run_types.specs.Paths.{IsLink, next};
ghost use Rattle.run_types.specs.Routes.{without_route};
ghost use Rattle.run_types.specs.RoutedPlacements.{IsRouted};
ghost use Rattle.table_routing.specs.Tables.{ReportsFault};

use crate::fault::TableFault;
use crate::held::Held;
use crate::routed::RoutedPlacement;
use crate::routes::{Routes, is_cut};
use run_types::Placement;
use std::alloc::Global;
use std::marker::Model;

/// The routing table of a placement: the next node for each node and goal. Contracts see the placement. Only `make`
/// allocates.
#[derive(Drop)]
pub struct Table<'a> {
    placement: &'a Placement,
    routes: Held<'a>,
}

impl<'a> Model for Table<'a> {
    ghost use Rattle.run_types.specs.declared.types.Placement.{Placement};
    ghost use Rattle.run_types.specs.contracts.types.Placement as placement_of;

    ghost Value = { Placement };

    ghost coded = { placement_of.the_row.coded };

    ghost use Rattle.table_routing.specs.TableInvariant.{IsTable};

    ghost view = { λ t. t.placement.now };

    ghost invariant = { IsTable };
}

impl<'a> Table<'a> {
    /// Makes the table of a placement whose routes and cuts are links of its mesh. Returns `NoRoute` with the first
    /// pair of nodes that has no route, or `Memory` if memory runs out.
    pub fn make(alloc: Global, placement: &'a Placement) -> Result<Table<'a>, TableFault>
        requires routed { IsRouted placement.now }
        ensures ok { IfOk result (λ t. (t ≡ placement.now) × (without_route placement.now ≡ None)) }
        ensures err { IfErr result (λ f. ReportsFault f (without_route placement.now)) }
    {
        match Routes::make(alloc, placement) {
            Ok(routes) => Ok(Table {
                placement,
                routes: Held::Own(routes),
            }),
            Err(fault) => Err(fault),
        }
    }

    /// The table of a routed placement, with the routes of the placement. Allocates nothing.
    pub fn of(routed: &'a RoutedPlacement) -> Table<'a>
        ensures { result ≡ routed.now }
    {
        Table {
            placement: routed.placement(),
            routes: Held::Lent(routed.routes()),
        }
    }

    /// The placement of the table.
    pub fn placement(&self) -> &'a Placement
        ensures { result.now ≡ self.now }
    {
        self.placement
    }

    /// The next node on the path from `at` to `to`. None exactly if both are equal. Requires nodes of the placement.
    pub fn next(&self, at: u32, to: u32) -> Option<u32>
        requires at { at < self.now.width * self.now.height }
        requires to { to < self.now.width * self.now.height }
        ensures none { IsNone result ↔ (at ≡ to) }
        ensures some { IfSome result (λ n. n ≡ next self.now at to) }
        ensures link { IfSome result (λ n. IsLink self.now (at, n)) }
    {
        if at == to {
            return None;
        }
        let routes = self.routes.routes();
        let nodes = routes.mesh.width * routes.mesh.height;
        Some(routes.nexts[(at * nodes + to) as usize])
    }

    /// Reports whether a link that is not cut leads from the one node to the other. Requires nodes of the placement.
    pub fn is_link(&self, from: u32, to: u32) -> bool
        requires from { from < self.now.width * self.now.height }
        requires to { to < self.now.width * self.now.height }
        ensures { IsTrue result ↔ IsLink self.now (from, to) }
    {
        let routes = self.routes.routes();
        routes.mesh.is_link(from, to) && !is_cut(self.placement.cuts.items(), from, to)
    }
}
