//! Items that have a name.
ghost use Rattle.std.specs.Prelude.{◌≡◌, ℕ};

use pool_syntax::{ClassDecl, Method, Named, Var};
use run_types::NameId;

/// An item that has a name.
pub trait HasName {
    ghost name: { Self → ℕ };

    fn name(&self) -> NameId
        ensures { result.0 ≡ name self.now };
}

impl HasName for Named {
    ghost name = { λ n. n.name.0 };

    fn name(&self) -> NameId {
        self.name
    }
}

impl HasName for Var {
    ghost name = { λ v. v.name.0 };

    fn name(&self) -> NameId {
        self.name
    }
}

impl HasName for Method {
    ghost name = { λ m. m.name.name.0 };

    fn name(&self) -> NameId {
        self.name.name
    }
}

impl HasName for ClassDecl {
    ghost name = { λ k. k.name.name.0 };

    fn name(&self) -> NameId {
        self.name.name
    }
}
