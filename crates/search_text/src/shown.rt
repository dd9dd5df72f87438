//! The configuration at the end of a run.
ghost use Rattle.std.specs.Prelude.{◌≡◌, Ok, Some, None, IfOk, replicate, true, false};
ghost use Rattle.pool_syntax.specs.TreeOf.{program_of};
ghost use Rattle.pool_relation.specs.Transition.{run};
ghost use Rattle.pool_search.specs.SearchTargets.{LeadsTo};
ghost use Rattle.pool_semantics.specs.PlainOf.{configuration_of, program_tree};

use class_check::Checked;
use label_list::LabelList;
use pool_semantics::{Plain, Refuse};
use run_types::Label;
use std::alloc::{AllocError, Global};

/// Makes so many transitions with this label. `false` if one of them is not possible. An error means out of memory.
fn repeat(plain: &mut Plain<'_>, label: &Label, times: u32) -> Result<bool, AllocError>
    ensures program { program_tree plain.new ≡ program_tree plain.old }
    ensures made { result ≡ Ok true → run (program_tree plain.old) (configuration_of plain.old) (replicate times label.now) ≡ Some (configuration_of plain.new) }
    ensures refused { result ≡ Ok false → run (program_tree plain.old) (configuration_of plain.old) (replicate times label.now) ≡ None }
{
    for _made in 0..times {
        match plain.apply(label) {
            Ok(()) => {}
            Err(Refuse::Memory) => return Err(AllocError),
            Err(Refuse::NotPossible { .. }) => return Ok(false),
        }
    }
    Ok(true)
}

/// Makes the transitions of these labels from the start of the program. Requires that each is possible.
/// An error means out of memory.
pub fn replay<'a>(
    alloc: Global,
    program: &Checked<'a>,
    labels: &LabelList,
) -> Result<Plain<'a>, AllocError>
    requires { LeadsTo (program_of program.now.program.now) labels.now (λ d. Unit {0}) }
    ensures program { IfOk result (λ s. program_tree s ≡ program_of program.now.program.now) }
    ensures last { IfOk result (λ s. LeadsTo (program_of program.now.program.now) labels.now (λ d. d ≡ configuration_of s)) }
{
    let mut plain = Plain::make(alloc, program, 0)?;
    for part in labels.parts() {
        match repeat(&mut plain, &part.label(), part.times()) {
            Ok(true) => {}
            Ok(false) => unreachable!(),
            Err(_) => return Err(AllocError),
        }
    }
    Ok(plain)
}
