//! Stacks of sorts. Stacks share their lower parts: each is a cell with its last operand, on another stack.
ghost use Rattle.std.specs.Prelude.{◌≡◌, ◌<◌, ◌∷◌, ◌++◌, [], suc, length, replicate, slice_get, option_map, IfOk, IfSome, OnOk, OnErr};
ghost use Rattle.run_types.specs.declared.types.Kind.TheVariants as K;
ghost use Rattle.code_typing.specs.Sorts.{pop_alike, pop_any, pop_arguments, pop_fitting, pop_value};
ghost use Rattle.code_typing.specs.Verdict.{stacks_equal};
ghost use Rattle.code_typing.specs.StackEffects.{Holds, Keeps, stack_at, stack_of, topped};
ghost use Rattle.code_typing.specs.Chained.{sort_tree};

use crate::cell::{Cell, Stacks};
use crate::sort::{Sort, kind_sort};
use run_types::Kind;
use std::alloc::{AllocError, Global};

fn cell_at(cells: &[Cell], place: usize) -> Option<Cell>
    ensures { result ≡ slice_get cells.now place }
{
    cells.get(place).copied()
}

fn push_cell(cells: &mut Vec<Cell>, cell: Cell) -> Result<(), AllocError>
    ensures ok { OnOk result (cells.new.items ≡ cells.old.items ++ cell ∷ []) }
    ensures err { OnErr result (cells.new.items ≡ cells.old.items) }
{
    cells.push(cell)?;
    Ok(())
}

impl Stacks {
    /// Makes the empty stack only. Allocates no memory.
    pub fn make(alloc: Global) -> Stacks
        ensures { stack_of result 0 ≡ [] }
    {
        Stacks {
            cells: Vec::new(alloc),
        }
    }

    /// The cell of a stack; none if the stack is empty.
    fn top(&self, stack: usize) -> Option<Cell>
        ensures stack { stack_of self.now stack ≡ topped self.now result }
        ensures below { IfSome result (λ c. c.below < stack) }
        ensures there { IfSome result (λ c. Holds self.now c.below) }
        ensures depth { IfSome result (λ c. c.depth ≡ suc (length (stack_of self.now c.below))) }
    {
        if stack == 0 {
            return None;
        }
        cell_at(&self.cells, stack - 1)
    }

    /// The number of operands of a stack.
    pub fn depth(&self, stack: usize) -> usize
        ensures { result ≡ length (stack_of self.now stack) }
    {
        match self.top(stack) {
            None => 0,
            Some(cell) => cell.depth,
        }
    }

    /// Pushes an operand on a stack. Returns the number of the new stack, and reports an error if out of memory.
    pub fn push(&mut self, sort: Sort, below: usize) -> Result<usize, AllocError>
        requires { Holds self.old below }
        ensures stack { IfOk result (λ n. stack_of self.new n ≡ sort_tree sort ∷ stack_of self.old below) }
        ensures there { IfOk result (λ n. Holds self.new n) }
        ensures kept { OnOk result (Keeps self.old self.new) }
    {
        let depth = self.depth(below) + 1;
        let cell = Cell { sort, below, depth };
        push_cell(&mut self.cells, cell)?;
        Ok(self.cells.len())
    }

    /// Pops the last operand. Returns none if the stack is empty.
    pub fn pop_any(&self, stack: usize) -> Option<usize>
        ensures stack { stack_at self.now result ≡ pop_any (stack_of self.now stack) }
        ensures there { IfSome result (λ n. Holds self.now n) }
    {
        let cell = self.top(stack)?;
        Some(cell.below)
    }

    /// Pops the last operand. Returns none if the stack is empty, or if the operand does not fit the sort.
    pub fn pop_fitting(&self, need: Sort, stack: usize) -> Option<usize>
        ensures stack { stack_at self.now result ≡ pop_fitting (sort_tree need) (stack_of self.now stack) }
        ensures there { IfSome result (λ n. Holds self.now n) }
    {
        let cell = self.top(stack)?;
        if cell.sort.fits(need) {
            Some(cell.below)
        } else {
            None
        }
    }

    /// Pops the last operand. Returns none if the stack is empty, or if the operand has no value.
    pub fn pop_value(&self, stack: usize) -> Option<usize>
        ensures stack { stack_at self.now result ≡ pop_value (stack_of self.now stack) }
        ensures there { IfSome result (λ n. Holds self.now n) }
    {
        let cell = self.top(stack)?;
        if cell.sort.has_value() {
            Some(cell.below)
        } else {
            None
        }
    }

    /// Pops the last two operands. Returns none if there are fewer, or if they cannot be compared.
    pub fn pop_alike(&self, stack: usize) -> Option<usize>
        ensures stack { stack_at self.now result ≡ pop_alike (stack_of self.now stack) }
        ensures there { IfSome result (λ n. Holds self.now n) }
    {
        let last = self.top(stack)?;
        let cell = self.top(last.below)?;
        if cell.sort.is_alike(last.sort) {
            Some(cell.below)
        } else {
            None
        }
    }

    /// Pops the arguments for these parameters; the last argument is the last operand.
    /// Returns none if one is missing or does not fit.
    pub fn pop_arguments(&self, params: &[Kind], stack: usize) -> Option<usize>
        requires { Holds self.now stack }
        ensures stack { stack_at self.now result ≡ pop_arguments params.now (stack_of self.now stack) }
        ensures there { IfSome result (λ n. Holds self.now n) }
    {
        let mut rest = stack;
        for i in (0..params.len()).rev() {
            rest = self.pop_fitting(kind_sort(params[i]), rest)?;
        }
        Some(rest)
    }

    /// Pops `count` operands that fit `Bool`. Returns none if one is missing or does not fit.
    pub fn pop_guards(&self, count: usize, stack: usize) -> Option<usize>
        requires { Holds self.now stack }
        ensures stack { stack_at self.now result ≡ pop_arguments (replicate count K.Bool) (stack_of self.now stack) }
        ensures there { IfSome result (λ n. Holds self.now n) }
    {
        let mut rest = stack;
        for _ in 0..count {
            rest = self.pop_fitting(Sort::Bool, rest)?;
        }
        Some(rest)
    }

    /// The sort of the operand that is `count` places below the last one; none if the stack is too short.
    pub fn sort_below(&self, count: u32, stack: usize) -> Option<Sort>
        ensures { option_map sort_tree result ≡ slice_get (stack_of self.now stack) count }
    {
        let mut rest = stack;
        for _ in 0..count {
            rest = self.pop_any(rest)?;
        }
        let cell = self.top(rest)?;
        Some(cell.sort)
    }

    /// Whether two stacks have the same sorts.
    pub fn are_equal(&self, one: usize, other: usize) -> bool
        ensures { result ≡ stacks_equal (stack_of self.now one) (stack_of self.now other) }
    {
        let mut one = one;
        let mut other = other;
        while let Some(cell) = self.top(one) {
            let Some(other_cell) = self.top(other) else {
                return false;
            };
            if !cell.sort.is_equal(other_cell.sort) {
                return false;
            }
            one = cell.below;
            other = other_cell.below;
        }
        self.top(other).is_none()
    }
}
