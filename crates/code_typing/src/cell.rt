//! The cells of stacks of sorts.
ghost use Rattle.code_typing.specs.Chained.{IsChained};

use crate::sort::Sort;

/// A stack that is not empty: the sort of its last operand, the number of the stack below, and its number of operands.
#[derive(Clone, Copy)]
pub struct Cell {
    pub sort: Sort,
    pub below: usize,
    pub depth: usize,
}

/// Stacks of sorts by their numbers. Stack 0 is empty, and stack `n + 1` is the cell at place `n`.
#[derive(Drop)]
pub struct Stacks {
    pub cells: Vec<Cell>,
    pub ghost chained: { IsChained cells.items },
}
