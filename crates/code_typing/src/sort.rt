//! The sorts of operands.
ghost use Rattle.std.specs.Prelude.{◌≡◌};
ghost use Rattle.run_types.specs.Sorts.{is_same_sort, op_sort, operand_sort};
ghost use Rattle.run_types.specs.Values.{is_prefix};
ghost use Rattle.code_typing.specs.Sorts.{fits_sort, has_value, is_alike, is_comparison, kind_sort, result_sort, value_sort};
ghost use Rattle.code_typing.specs.Verdict.{sorts_equal};
ghost use Rattle.code_typing.specs.Chained.{sort_tree};

use run_types::{Kind, NameId, Op};

/// The sort of an operand: of a declared kind, of nil, or of a call without result.
#[derive(Clone, Copy)]
pub enum Sort {
    Int,
    Bool,
    Class(NameId),
    Nil,
    NoResult,
}

impl Sort {
    /// Whether the sorts are equal and have values.
    fn is_same(self, other: Sort) -> bool
        ensures { result ≡ is_same_sort (sort_tree self) (sort_tree other) }
    {
        match (self, other) {
            (Sort::Int, Sort::Int) => true,
            (Sort::Bool, Sort::Bool) => true,
            (Sort::Class(class), Sort::Class(other_class)) => class.0 == other_class.0,
            (Sort::Nil, Sort::Nil) => true,
            _ => false,
        }
    }

    /// Whether the sorts are equal.
    pub fn is_equal(self, other: Sort) -> bool
        ensures { result ≡ sorts_equal (sort_tree self) (sort_tree other) }
    {
        match (self, other) {
            (Sort::NoResult, Sort::NoResult) => true,
            _ => self.is_same(other),
        }
    }

    /// Whether an operand of this sort has a value.
    pub fn has_value(self) -> bool
        ensures { result ≡ has_value (sort_tree self) }
    {
        match self {
            Sort::NoResult => false,
            Sort::Int | Sort::Bool | Sort::Class(_) | Sort::Nil => true,
        }
    }

    /// Whether an operand of this sort is allowed where the sort `need` is required. Nil is always allowed.
    pub fn fits(self, need: Sort) -> bool
        ensures { result ≡ fits_sort (sort_tree self) (sort_tree need) }
    {
        match self {
            Sort::Nil => true,
            _ => self.is_same(need),
        }
    }

    /// Whether operands of the two sorts can be compared.
    pub fn is_alike(self, other: Sort) -> bool
        ensures { result ≡ is_alike (sort_tree self) (sort_tree other) }
    {
        self.has_value() && other.has_value() && (self.fits(other) || other.fits(self))
    }
}

/// The sort of a kind.
pub fn kind_sort(kind: Kind) -> Sort
    ensures { sort_tree result ≡ kind_sort kind }
{
    match kind {
        Kind::Int => Sort::Int,
        Kind::Bool => Sort::Bool,
        Kind::Class(name) => Sort::Class(name),
    }
}

/// The sort of a call's value; `NoResult` if the method has no result.
pub fn result_sort(kind: Option<Kind>) -> Sort
    ensures { sort_tree result ≡ result_sort kind }
{
    match kind {
        None => Sort::NoResult,
        Some(kind) => kind_sort(kind),
    }
}

/// The sort that the value at the end of a method must fit; `Nil` if the method has no result.
pub fn value_sort(kind: Option<Kind>) -> Sort
    ensures { sort_tree result ≡ value_sort kind }
{
    match kind {
        None => Sort::Nil,
        Some(kind) => kind_sort(kind),
    }
}

/// The sort of an operator's value.
pub fn op_sort(op: Op) -> Sort
    ensures { sort_tree result ≡ op_sort op }
{
    match op {
        Op::Add | Op::Sub | Op::Mul | Op::Div | Op::Rem | Op::Neg => Sort::Int,
        Op::Less | Op::LessEq | Op::More | Op::MoreEq | Op::Same | Op::Differs => Sort::Bool,
        Op::And | Op::Or | Op::Not => Sort::Bool,
    }
}

/// The sort that the operands of an operator must fit.
/// `Same` and `Differs` do not use it: they compare any two operands.
pub fn operand_sort(op: Op) -> Sort
    ensures { sort_tree result ≡ operand_sort op }
{
    match op {
        Op::And | Op::Or | Op::Not => Sort::Bool,
        Op::Add | Op::Sub | Op::Mul | Op::Div | Op::Rem | Op::Neg => Sort::Int,
        Op::Less | Op::LessEq | Op::More | Op::MoreEq | Op::Same | Op::Differs => Sort::Int,
    }
}

/// Whether an operator is a prefix operator, with one operand.
pub fn is_prefix(op: Op) -> bool
    ensures { result ≡ is_prefix op }
{
    matches!(op, Op::Neg | Op::Not)
}

/// Whether an operator compares any two operands.
pub fn is_comparison(op: Op) -> bool
    ensures { result ≡ is_comparison op }
{
    matches!(op, Op::Same | Op::Differs)
}
