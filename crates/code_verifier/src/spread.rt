//! The data-flow analysis of a code: it spreads stacks of sorts over the places of the code.
ghost use Rattle.std.specs.Prelude.{◌≡◌, slice_get, ◌<◌, ◌≤◌, ◌^◌, ◌∷◌, ◌++◌, [], length, drop, map, reverse, replicate, is_none, option_map, Some, None, IfOk, IfSome, OnOk};
ghost use Rattle.std.specs.List.{list_all};
ghost use Rattle.code_semantics.specs.ReachedPlaces.{nexts};
ghost use Rattle.code_typing.specs.Verdict.{has_table, most, table_of};
ghost use Rattle.code_verifier.specs.Scopes.{scope_of};
ghost use Rattle.code_verifier.specs.Spreads.{IsEffect, SpreadInvariant, IsNext, IsNoted, fits_by, gone, stepped, table_by, to_place, visit_of, visits_by};
ghost use Rattle.code_typing.specs.StackEffects.{Holds, Keeps, stack_of, with_sort};

use crate::effects::{Left, left_by};
use crate::scope::Scope;
use code_semantics::{AltCode, Instr};
use code_typing::Stacks;
use std::alloc::{AllocError, Global};

/// The greatest depth of a stack that an instruction may take.
const MOST_OPERANDS: usize = 64;

/// The first place that may not be reached.
const MOST_PLACES: usize = 1 << 32;

/// A place, and the number of the stack with which it is reached.
#[derive(Clone, Copy)]
pub struct Visit {
    pub place: usize,
    pub stack: usize,
}

/// The state of the analysis: the stacks that were met, for each place the stack with which it was reached (if it was),
/// and the visits that are left. The last visit is the next.
#[derive(Drop)]
pub struct Spread {
    pub stacks: Stacks,
    pub table: Vec<Option<usize>>,
    pub visits: Vec<Visit>,
}

/// An instruction, and its effect on a stack.
#[derive(Clone, Copy)]
pub struct Effect<'a> {
    pub instr: &'a Instr,
    pub left: Left,
}

fn instr_at(code: &[Instr], place: usize) -> Option<&Instr>
    ensures { option_map (λ i. i.now) result ≡ slice_get code.now place }
{
    code.get(place)
}

/// Adds a visit of each alternative, so that the first alternative is visited next. Reports an error if out of memory.
fn push_alternatives(
    visits: &mut Vec<Visit>,
    alternatives: &[AltCode],
    stack: usize,
) -> Result<(), AllocError>
    ensures { OnOk result (reverse visits.new.items ≡ map (to_place stack) (map (λ a. a.at) alternatives.now) ++ reverse visits.old.items) }
{
    for i in (0..alternatives.len()).rev() {
        let place = alternatives[i].at as usize;
        let Ok(()) = visits.push(Visit { place, stack }) else {
            return Err(AllocError);
        };
    }
    Ok(())
}

/// Adds a visit of each place after an instruction, so that the first place is visited next.
/// Reports an error if out of memory.
fn push_nexts(
    visits: &mut Vec<Visit>,
    place: usize,
    instr: &Instr,
    stack: usize,
) -> Result<(), AllocError>
    requires { place < 2 ^ 63 }
    ensures { OnOk result (reverse visits.new.items ≡ map (to_place stack) (nexts place instr.now) ++ reverse visits.old.items) }
{
    match instr {
        Instr::Ret | Instr::Halt => {}
        Instr::Jump(at) => visits.push(Visit {
            place: *at as usize,
            stack,
        })?,
        Instr::Branch(at) => {
            visits.push(Visit {
                place: *at as usize,
                stack,
            })?;
            visits.push(Visit {
                place: place + 1,
                stack,
            })?;
        }
        Instr::Select { alts } => push_alternatives(visits, alts.items(), stack)?,
        _ => visits.push(Visit {
            place: place + 1,
            stack,
        })?,
    }
    Ok(())
}

/// The number of the stack after an instruction. Reports an error if out of memory.
fn put(stacks: &mut Stacks, left: Left) -> Result<usize, AllocError>
    requires { Holds stacks.old left.below }
    ensures stack { IfOk result (λ n. stack_of stacks.new n ≡ with_sort left.pushed (stack_of stacks.old left.below)) }
    ensures there { IfOk result (λ n. Holds stacks.new n) }
    ensures kept { OnOk result (Keeps stacks.old stacks.new) }
{
    match left.pushed {
        None => Ok(left.below),
        Some(sort) => stacks.push(sort, left.below),
    }
}

/// A table of `size` places, none of them reached. Reports an error if out of memory.
fn unreached(alloc: Global, size: usize) -> Result<Vec<Option<usize>>, AllocError>
    ensures { IfOk result (λ table. table.items ≡ replicate size None) }
{
    let mut table = Vec::new(alloc);
    for _ in 0..size {
        let Ok(()) = table.push(None) else {
            return Err(AllocError);
        };
    }
    Ok(table)
}

/// Whether no place from this one on is reached.
#[tactic(auto, using(crate::proofs::SpreadSteps::none_far))]
fn is_within(table: &[Option<usize>], end: usize) -> bool
    ensures { result ≡ list_all is_none (drop end table.now) }
{
    for place in end..table.len() {
        if table[place].is_some() {
            return false;
        }
    }
    true
}

impl Spread {
    /// The first state: no place is reached, and place 0 is to be visited with the empty stack.
    fn start(alloc: Global, size: usize) -> Result<Spread, AllocError>
        ensures table { IfOk result (λ x. table_by x ≡ replicate size None) }
        ensures visits { IfOk result (λ x. visits_by x ≡ (0, []) ∷ []) }
        ensures kept { IfOk result (λ x. SpreadInvariant x) }
    {
        Ok(Spread {
            stacks: Stacks::make(alloc),
            table: unreached(alloc, size)?,
            visits: vec![in alloc; Visit { place: 0, stack: 0 }]?,
        })
    }

    /// Takes the next visit; none if no visit is left.
    fn take_next(&mut self) -> Option<Visit>
        requires kept { SpreadInvariant self.old }
        ensures { IsNext self.old result self.new }
    {
        self.visits.pop()
    }

    /// The instruction at a place, and its effect on the stack; none
    /// if there is no instruction, or if it cannot take the stack.
    #[tactic(auto, using(crate::proofs::SpreadTurns::followed_none, crate::proofs::SpreadTurns::followed_deep, crate::proofs::SpreadTurns::followed_left))]
    fn effect<'a>(&self, scope: &Scope<'_>, code: &'a [Instr], visit: Visit) -> Option<Effect<'a>>
        requires { Holds self.now.stacks visit.stack }
        ensures { IsEffect (scope_of scope.now) code.now self.now.stacks visit result }
    {
        let instr = instr_at(code, visit.place)?;
        if self.stacks.depth(visit.stack) > MOST_OPERANDS {
            return None;
        }
        let left = left_by(scope, &self.stacks, instr, visit.stack)?;
        Some(Effect { instr, left })
    }

    /// Records the stack of a place, and adds the visits that follow. Reports an error if out of memory.
    fn note(&mut self, visit: Visit, instr: &Instr, left: Left) -> Result<(), AllocError>
        requires below { Holds self.old.stacks left.below }
        requires new { slice_get (table_by self.old) visit.place ≡ Some None }
        ensures { OnOk result (IsNoted self.old visit instr.now left self.new) }
    {
        let stack = put(&mut self.stacks, left)?;
        self.table[visit.place] = Some(visit.stack);
        push_nexts(&mut self.visits, visit.place, instr, stack)?;
        Ok(())
    }

    /// Visits a place that is reached for the first time. Returns false if its instruction cannot take the stack.
    /// Reports an error if out of memory.
    #[tactic(auto, using(crate::proofs::SpreadTurns::no_effect, crate::proofs::SpreadTurns::has_effect, crate::proofs::SpreadTurns::effect_kept))]
    fn go_on(&mut self, scope: &Scope<'_>, code: &[Instr], visit: Visit) -> Result<bool, AllocError>
        requires kept { SpreadInvariant self.old }
        requires there { Holds self.old.stacks visit.stack }
        requires new { slice_get (table_by self.old) visit.place ≡ Some None }
        ensures step { IfOk result (λ b. gone b self.new ≡ stepped (scope_of scope.now) code.now (table_by self.old) (visit_of self.old.stacks visit) (visits_by self.old)) }
        ensures kept { OnOk result (SpreadInvariant self.new) }
    {
        let Some(effect) = self.effect(scope, code, visit) else {
            return Ok(false);
        };
        self.note(visit, effect.instr, effect.left)?;
        Ok(true)
    }

    /// Visits a place. Returns false if the place does not exist, if its instruction cannot take the stack,
    /// or if the place was reached with another stack. Reports an error if out of memory.
    fn step(&mut self, scope: &Scope<'_>, code: &[Instr], visit: Visit) -> Result<bool, AllocError>
        requires kept { SpreadInvariant self.old }
        requires there { Holds self.old.stacks visit.stack }
        ensures step { IfOk result (λ b. gone b self.new ≡ stepped (scope_of scope.now) code.now (table_by self.old) (visit_of self.old.stacks visit) (visits_by self.old)) }
        ensures kept { OnOk result (SpreadInvariant self.new) }
    {
        match self.table.get(visit.place).copied() {
            None => Ok(false),
            Some(Some(stack)) => Ok(self.stacks.are_equal(stack, visit.stack)),
            Some(None) => self.go_on(scope, code, visit),
        }
    }

    /// The greatest depth of a stack with which a place was reached.
    fn most(&self) -> usize
        ensures { result ≡ most (table_by self.now) }
    {
        let mut most = 0;
        for stack in &self.table {
            if let Some(stack) = stack {
                most = self.stacks.depth(*stack).max(most);
            }
        }
        most
    }

    /// Whether `words` is `temps` plus the greatest depth of a stack, and no place from 2^32 on is reached.
    #[tactic(auto, using(crate::proofs::SpreadTurns::split_up_to_four, crate::proofs::SpreadTurns::other_words, crate::proofs::SpreadTurns::same_words))]
    fn fits(&self, words: u32, temps: usize) -> bool
        ensures { result ≡ fits_by words temps (table_by self.now) }
    {
        let most = self.most();
        let words = words as usize;
        if words < temps {
            return false;
        }
        if words - temps != most {
            return false;
        }
        is_within(&self.table, MOST_PLACES)
    }
}

/// Spreads stacks over a code from place 0. Returns none if a place is reached with two stacks,
/// or with a stack that its instruction cannot take. Reports an error if out of memory.
#[tactic(auto, using(crate::proofs::SpreadTurns::turned_all))]
fn spread_over(
    alloc: Global,
    scope: &Scope<'_>,
    code: &[Instr],
) -> Result<Option<Spread>, AllocError>
    ensures { IfOk result (λ o. option_map table_by o ≡ table_of (scope_of scope.now) code.now) }
{
    let mut spread = Spread::start(alloc, code.len())?;
    while let Some(visit) = spread.take_next() {
        if !spread.step(scope, code, visit)? {
            return Ok(None);
        }
    }
    Ok(Some(spread))
}

/// Whether each reached place is below 2^32 and has one stack of at most 64 sorts, which its instruction can take.
/// Also, `words` must be the number of temps plus the greatest depth of a stack. Reports an error if out of memory.
/// Each instruction is applied once, and each place after it is visited once. A visit compares at most 64 operands.
/// So time and memory are proportional to the code.
pub fn has_table(
    alloc: Global,
    scope: &Scope<'_>,
    words: u32,
    code: &[Instr],
) -> Result<bool, AllocError>
    ensures { IfOk result (λ b. b ≡ has_table (scope_of scope.now) words (table_of (scope_of scope.now) code.now)) }
{
    match spread_over(alloc, scope, code)? {
        None => Ok(false),
        Some(spread) => Ok(spread.fits(words, scope.temps.len())),
    }
}
