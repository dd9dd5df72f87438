//! The verdict on a record, as an output.
ghost use Rattle.std.specs.Prelude.{IfOk};
ghost use Rattle.pool_syntax.specs.TreeOf.{program_of};
ghost use Rattle.pool_driver.specs.Readers.{Decides};

use crate::outputs::Output;
use class_check::Checked;
use command_inputs::InputError;
use command_shell::status_of_verdict;
use record_check::theorems::a_record_has_one_verdict;
use record_check::{check_record, verdict_line};
use run_types::{Line, List, Names};
use std::alloc::{AllocError, Global};

/// Checks the lines of a record against a program with these names. The only error is out of memory.
pub fn judge(
    alloc: Global,
    program: &Checked<'_>,
    names: &Names,
    lines: &List<Line>,
) -> Result<Output, InputError>
    ensures { Decides names.now (program_of program.now.program.now) lines.now result }
{
    a_record_has_one_verdict();
    let verdict = match check_record(alloc, program, lines) {
        Ok(verdict) => verdict,
        Err(AllocError) => return Err(InputError::Memory),
    };
    match verdict_line(alloc, &verdict, names) {
        Ok(line) => Ok(Output::Verdict {
            line,
            status: status_of_verdict(&verdict),
        }),
        Err(AllocError) => Err(InputError::Memory),
    }
}
