//! The sorts of expressions, and the sorts that places require.
ghost use Rattle.std.specs.Prelude.{◌≡◌, ◌||◌, not, map};
ghost use Rattle.pool_syntax.specs.Terms.{ClassTree};
ghost use Rattle.pool_syntax.specs.TreeOf.{class_tree};
ghost use Rattle.pool_syntax.specs.Typing.{kind_sort, is_open, is_comparable, counted, misfit, no_result_faults};
ghost use Rattle.run_types.specs.Sorts.{op_sort, operand_sort, is_same_sort};
ghost use Rattle.type_check.specs.NotedFaults.{Notes};
ghost use Rattle.type_check.specs.CheckerScopes.{sort_tree};

use crate::classes::Classes;
use crate::fault::{ClassFault, note};
use run_types::{Kind, NameId, Op};

/// The sort of an expression.
#[derive(Clone, Copy)]
pub enum Sort {
    Int,
    Bool,
    Class(NameId),
    Nil,
    /// The sort of a call of a method without a result.
    NoResult,
    /// The sort of an expression in which a fault was already found.
    Broken,
}

impl Sort {
    fn is_open(self) -> bool
        ensures { result ≡ is_open (counted (sort_tree self)) }
    {
        match self {
            Sort::Nil | Sort::NoResult | Sort::Broken => true,
            Sort::Int | Sort::Bool | Sort::Class(_) => false,
        }
    }

    /// Reports whether two sorts can be compared.
    pub fn is_comparable(self, other: Sort) -> bool
        ensures { result ≡ is_comparable (counted (sort_tree self)) (counted (sort_tree other)) }
    {
        self.is_same(other) || self.is_open() || other.is_open()
    }

    fn is_same(self, other: Sort) -> bool
        ensures { result ≡ is_same_sort (sort_tree self) (sort_tree other) }
    {
        match (self, other) {
            (Sort::Int, Sort::Int) => true,
            (Sort::Bool, Sort::Bool) => true,
            (Sort::Class(class), Sort::Class(other_class)) => class.0 == other_class.0,
            (Sort::Nil, Sort::Nil) => true,
            _ => false,
        }
    }
}

/// Reports the sort of a declared type, which is broken if its class does not exist.
pub fn kind_sort(classes: &Classes, kind: Kind) -> Sort
    ensures { sort_tree result ≡ kind_sort (map class_tree classes.now.list.now) kind }
{
    match kind {
        Kind::Int => Sort::Int,
        Kind::Bool => Sort::Bool,
        Kind::Class(name) => match classes.named(name) {
            Some(_) => Sort::Class(name),
            None => Sort::Broken,
        },
    }
}

/// Reports the sort of an operator's value.
pub fn op_sort(op: Op) -> Sort
    ensures { sort_tree result ≡ op_sort op }
{
    match op {
        Op::Add | Op::Sub | Op::Mul | Op::Div | Op::Rem | Op::Neg => Sort::Int,
        Op::Less | Op::LessEq | Op::More | Op::MoreEq | Op::Same | Op::Differs => Sort::Bool,
        Op::And | Op::Or | Op::Not => Sort::Bool,
    }
}

/// Reports the sort that an operator's operands require, except for `==` and `!=`.
pub fn operand_sort(op: Op) -> Sort
    ensures { sort_tree result ≡ operand_sort op }
{
    match op {
        Op::And | Op::Or | Op::Not => Sort::Bool,
        Op::Add | Op::Sub | Op::Mul | Op::Div | Op::Rem | Op::Neg => Sort::Int,
        Op::Less | Op::LessEq | Op::More | Op::MoreEq | Op::Same | Op::Differs => Sort::Int,
    }
}

/// The sort of an expression, and its token.
#[derive(Clone, Copy)]
pub struct Placed {
    pub sort: Sort,
    pub token: u32,
}

/// Notes an expression without a result where a value is required.
pub fn note_no_result(at: Placed, first: &mut Option<ClassFault>)
    ensures { Notes first.old first.new (no_result_faults (sort_tree at.sort) at.token) }
{
    if let Sort::NoResult = at.sort {
        note(first, ClassFault::NoResult { token: at.token });
    }
}

/// Notes an expression whose place requires another sort.
pub fn note_misfit(at: Placed, need: Sort, first: &mut Option<ClassFault>)
    ensures { Notes first.old first.new (misfit (sort_tree at.sort) (sort_tree need) at.token) }
{
    note_no_result(at, first);
    let broken = match need {
        Sort::Broken => true,
        Sort::Int | Sort::Bool | Sort::Class(_) | Sort::Nil | Sort::NoResult => false,
    };
    if !at.sort.is_open() && !at.sort.is_same(need) && !broken {
        note(first, ClassFault::TypeDiffers { token: at.token });
    }
}
