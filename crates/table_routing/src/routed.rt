//! A placement with its routes.
ghost use Rattle.std.specs.Prelude.{◌≡◌, None, IfOk, IfErr};
ghost use Rattle.run_types.specs.Routes.{without_route};
ghost use Rattle.run_types.specs.RoutedPlacements.{IsRouted};
ghost use Rattle.table_routing.specs.Tables.{ReportsFault};

use crate::fault::TableFault;
use crate::routes::Routes;
use run_types::Placement;
use std::alloc::Global;
use std::marker::Model;

/// A placement with its routes, in which each pair of nodes has a route. Contracts see the placement. Only `make`
/// allocates.
#[derive(Drop)]
pub struct RoutedPlacement {
    placement: Placement,
    routes: Routes,
}

impl Model for RoutedPlacement {
    ghost use Rattle.run_types.specs.declared.types.Placement.{Placement};
    ghost use Rattle.run_types.specs.contracts.types.Placement as placement_of;

    ghost Value = { Placement };

    ghost coded = { placement_of.the_row.coded };

    ghost use Rattle.table_routing.specs.RoutesOf.{AreRoutesOf};

    ghost view = { λ t. t.placement };

    ghost invariant = { λ t. AreRoutesOf t.placement t.routes };
}

impl RoutedPlacement {
    ghost use Rattle.table_routing.specs.RoutesOf.{AreRoutesOf};

    /// Makes the routes of a placement whose routes and cuts are links of its mesh. Returns `NoRoute` with the first
    /// pair of nodes that has no route, or `Memory` if memory runs out.
    pub fn make(alloc: Global, placement: Placement) -> Result<RoutedPlacement, TableFault>
        requires routed { IsRouted placement }
        ensures ok { IfOk result (λ r. (r ≡ placement) × (without_route placement ≡ None)) }
        ensures err { IfErr result (λ f. ReportsFault f (without_route placement)) }
    {
        match Routes::make(alloc, &placement) {
            Ok(routes) => Ok(RoutedPlacement { placement, routes }),
            Err(fault) => Err(fault),
        }
    }

    /// The placement.
    pub fn placement(&self) -> &Placement
        ensures { result.now ≡ self.now }
    {
        &self.placement
    }

    /// The routes.
    pub(crate) fn routes(&self) -> &Routes
        ensures { AreRoutesOf self.now result.now }
    {
        &self.routes
    }

    /// The placement, without its routes.
    pub fn into_placement(self) -> Placement
        ensures { result ≡ self }
    {
        self.placement
    }
}
