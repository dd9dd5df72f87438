//! The objects that can make a transition of their own.
ghost use Rattle.std.specs.Prelude.{◌≡◌, ℕ, Some, IfOk, OnOk, true, false};
ghost use Rattle.std.specs.Ordering.{nat_cmp};
ghost use Rattle.std.specs.BTreeSet.{contains};
ghost use Rattle.pool_syntax.specs.TreeOf.{program_of};
ghost use Rattle.pool_relation.specs.Configuration.{messages_of};
ghost use Rattle.pool_relation.specs.Progress.{HasOwnTransition};
ghost use Rattle.pool_semantics.specs.Moving.{Adds, MovesBy, Takes};
ghost use Rattle.pool_semantics.specs.PlainOf.{configuration_of, program_tree, is_spent};
ghost use Rattle.pool_semantics.specs.Plains.{configuration};

use crate::plain::Plain;
use crate::plain::state::State;
use std::alloc::{AllocError, Global};
use std::collections::BTreeSet;

/// Adds the name, if there is one. Reports `AllocError` if memory runs out.
#[tactic(auto, using(crate::proofs::MoverSets::adds_none, crate::proofs::MoverSets::adds_one))]
fn add_mover(movers: &mut BTreeSet<u32>, mover: Option<u32>) -> Result<(), AllocError>
    ensures { OnOk result (Adds (λ b. mover ≡ Some b) movers.old movers.new) }
{
    match mover {
        None => Ok(()),
        Some(name) => {
            movers.insert(name)?;
            Ok(())
        }
    }
}

impl<'a> State<'a> {
    /// Adds the objects that can make a transition by some object's next action. Reports `AllocError` if memory runs
    /// out.
    fn add_by_objects(&self, movers: &mut BTreeSet<u32>) -> Result<(), AllocError>
        ensures { OnOk result (Adds (λ b. (o : ℕ) × MovesBy (program_of self.now.program.now) (configuration self.now) o b) movers.old movers.new) }
    {
        for (object, _thing) in &self.objects {
            add_mover(movers, self.moved_by(*object))?;
        }
        Ok(())
    }

    /// Adds the objects that can take a message. Reports `AllocError` if memory runs out.
    fn add_by_messages(&self, movers: &mut BTreeSet<u32>) -> Result<(), AllocError>
        ensures { OnOk result
            (Adds (λ b. (s : ℕ) × Takes (program_of self.now.program.now) (configuration self.now) b (messages_of (configuration self.now) s b)) movers.old movers.new) }
    {
        for (pair, queue) in &self.messages {
            add_mover(movers, self.taker(pair.1, queue))?;
        }
        Ok(())
    }
}

impl<'a> Plain<'a> {
    /// The objects that can make a transition of their own. Makes one pass over the objects and one over the messages.
    /// Reports `AllocError` if memory runs out.
    pub fn movers(&self, alloc: Global) -> Result<BTreeSet<u32>, AllocError>
        requires { is_spent self.now ≡ false }
        ensures all { IfOk result (λ movers. (o : ℕ) → HasOwnTransition (program_tree self.now) (configuration_of self.now) o → contains nat_cmp movers o ≡ true) }
        ensures only { IfOk result (λ movers. (o : ℕ) → contains nat_cmp movers o ≡ true → HasOwnTransition (program_tree self.now) (configuration_of self.now) o) }
    {
        let mut movers = BTreeSet::new(alloc);
        self.state.add_by_objects(&mut movers)?;
        self.state.add_by_messages(&mut movers)?;
        Ok(movers)
    }
}
