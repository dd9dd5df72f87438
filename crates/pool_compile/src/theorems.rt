//! Theorems about the compiled code of a program: it simulates the program's objects.
ghost use Rattle.std.specs.Prelude.{◌≡◌, ℕ, Some};
ghost use Rattle.pool_syntax.specs.Terms.{ClassTree};
ghost use Rattle.pool_syntax.specs.TreeOf.{program_of};
ghost use Rattle.pool_syntax.specs.Classes.{class_of};
ghost use Rattle.pool_relation.specs.Action.{Object};
ghost use Rattle.pool_relation.specs.Transition.{new_object};
ghost use Rattle.run_types.specs.declared.frames.CodeObject.{CodeObject as ObjectOfCode};
ghost use Rattle.code_semantics.specs.Step.{code_made};
ghost use Rattle.pool_compile.specs.Code.{name, code};
ghost use Rattle.pool_compile.specs.Follows.{Represents, Follows};

use code_semantics::Unit;
use pool_syntax::Program;

/// Code that represents an object has the same next action, and
/// after each step it represents the object after that step.
pub fn code_follows(program: &Program, unit: &Unit)
    requires { unit.now.classes ≡ code (program_of program.now) }
    ensures { (o : ℕ) (x : Object) (y : ObjectOfCode) → Represents (program_of program.now) unit.now x y → Follows (program_of program.now) unit.now o x y }
{}

/// The unit has code for a new object of each class of the program, and this code represents it.
pub fn new_code_stands(program: &Program, unit: &Unit)
    requires { unit.now.classes ≡ code (program_of program.now) }
    ensures { (c : ℕ) (k : ClassTree) → class_of (program_of program.now) c ≡ Some k → (y : ObjectOfCode) × (code_made unit.now (name c) ≡ Some y)
        × Represents (program_of program.now) unit.now (new_object k) y }
{}
