//! The routes of a table.
use crate::routes::Routes;

/// The routes of a table: its own, or those of a routed placement.
#[derive(Drop)]
pub(crate) enum Held<'a> {
    Own(Routes),
    Lent(&'a Routes),
}

impl<'a> Held<'a> {
    ghost use Rattle.std.specs.Prelude.{◌≡◌};
    ghost use Rattle.table_routing.specs.RoutesOf.{routes_in};

    /// The routes.
    pub(crate) fn routes(&self) -> &Routes
        ensures { result.now ≡ routes_in self.now }
    {
        match self {
            Held::Own(routes) => routes,
            Held::Lent(routes) => *routes,
        }
    }
}
