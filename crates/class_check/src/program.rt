//! The class checker of a program.
ghost use Rattle.std.specs.Prelude.{◌≡◌, ◌≢◌, [], true, IfOk, IsOk, IsErr};
ghost use Rattle.pool_syntax.specs.TreeOf.{program_of};
ghost use Rattle.pool_syntax.specs.Typing.{faults};
ghost use Rattle.pool_grammar.specs.Grammatical.{IsGrammatical};
ghost use Rattle.pool_syntax.specs.Spelled.{is_spelled};
ghost use Rattle.class_check.specs.Least.{IsLeastFault};
ghost use Rattle.type_check.specs.PairOf.{pair_of};
ghost use Rattle.type_check.specs.declared.fault.ClassFault.{ClassFault as AFault};

use declaration_check::classes;
use pool_syntax::Program;
use run_types::Names;
use std::alloc::Global;
use type_check::ClassFault;

/// A program without class faults, and the table of its names and strings.
#[derive(Clone, Copy)]
pub struct Checked<'a> {
    pub program: &'a Program,
    pub names: &'a Names,
    pub ghost typed: { faults (program_of program.now) ≡ [] },
    pub ghost grammatical: { ∥ IsGrammatical (program_of program.now) ∥₁ },
    pub ghost spelled: { is_spelled names.now (program_of program.now) ≡ true },
}

/// Reports the program as `Checked` if it has no class faults. Otherwise it reports the fault at the least token, and
/// of the least number there. `Memory` comes only if memory runs out.
pub fn check<'a>(
    alloc: Global,
    program: &'a Program,
    names: &'a Names,
) -> Result<Checked<'a>, ClassFault>
    requires grammatical { IsGrammatical (program_of program.now) }
    requires spelled { is_spelled names.now (program_of program.now) ≡ true }
    ensures same { IfOk result (λ c. (c.program.now ≡ program.now) × (c.names.now ≡ names.now)) }
    ensures typed { IsOk result → faults (program_of program.now) ≡ [] }
    ensures fault { (f : AFault) → result ≡ Err f → f ≢ ClassFault.Memory → IsLeastFault (faults (program_of program.now)) (pair_of f) }
    ensures only { faults (program_of program.now) ≡ [] → IsErr result → result ≡ Err ClassFault.Memory }
{
    let mut first = None;
    match classes(alloc, program.classes.items(), &mut first) {
        Err(_) => Err(ClassFault::Memory),
        Ok(()) => match first {
            None => Ok(Checked { program, names }),
            Some(fault) => Err(fault),
        },
    }
}
