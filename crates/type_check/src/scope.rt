//! The scope of an expression or a statement.
ghost use Rattle.std.specs.Prelude.{◌≡◌};
ghost use Rattle.type_check.specs.Index.{IsIndex};

use crate::classes::Classes;
use crate::index::Index;
use pool_syntax::{ClassDecl, Method, Var};
use run_types::{Kind, NameId};
use std::collections::HashMap;

/// The scope of an expression or a statement. Outside a method it has no parameters and locals.
#[derive(Clone, Copy)]
pub struct Scope<'a> {
    pub classes: &'a Classes<'a>,
    pub own: &'a ClassDecl,
    pub methods: &'a HashMap<u32, usize>,
    pub vars: &'a Index<'a, Var>,
    pub params: &'a Index<'a, Var>,
    pub locals: &'a Index<'a, Var>,
    /// Whether it is in post statements, in which the method's value is held.
    pub in_post: bool,
    pub ghost own_methods: { IsIndex (λ m. m.name.name.0) methods.now own.now.methods },
    pub ghost own_vars: { vars.now.list.now ≡ own.now.vars },
}

impl<'a> Scope<'a> {
    ghost use Rattle.std.specs.Prelude.{◌≡◌, ◌≤◌, is_some, not};
    ghost use Rattle.pool_syntax.specs.Typing.{name_sort, is_broken_name, own_method};
    ghost use Rattle.type_check.specs.CheckerScopes.{scope_of, method_of, declared_sort};

    /// Reports the number of operands held when an outermost expression begins.
    pub fn held(&self) -> u8
        ensures same { result ≡ (scope_of self.now).held }
        ensures few { result ≤ 1 }
    {
        if self.in_post { 1 } else { 0 }
    }

    /// Reports the index of the methods of the own class.
    pub fn own_methods(&self) -> Index<'a, Method>
        ensures { result.list.now ≡ self.now.own.now.methods }
    {
        Index {
            list: self.own.methods.items(),
            places: self.methods,
        }
    }

    /// Reports the method with this name in the own class, if there is one.
    #[tactic(auto, using(crate::proofs::NameLookup::named_method_found))]
    pub fn own_method(&self, name: NameId) -> Option<&'a Method>
        ensures { method_of result ≡ own_method (scope_of self.now) name.0 }
    {
        self.own_methods().first(name)
    }

    #[tactic(auto, using(crate::proofs::NameLookup::var_of_both, crate::proofs::NameLookup::var_of_found))]
    /// Reports the declared type of a name, if there is one: of a parameter or local, or otherwise of a variable of
    /// the class.
    pub fn kind_of(&self, name: NameId) -> Option<Kind>
        ensures known { is_some result ≡ not (is_broken_name (scope_of self.now) name.0) }
        ensures sort { declared_sort (scope_of self.now) result ≡ name_sort (scope_of self.now) name.0 }
    {
        match self.params.first(name).or(self.locals.first(name)) {
            Some(var) => Some(var.kind),
            None => match self.vars.first(name) {
                Some(var) => Some(var.kind),
                None => None,
            },
        }
    }
}
