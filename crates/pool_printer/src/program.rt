//! The printer of a program.
ghost use Rattle.std.specs.Prelude.{◌≡◌, ◌≤◌, ◌++◌, ℕ, length, take, option_map, true, OnOk, OnErr};
ghost use Rattle.pool_outside.specs.Outside.{Rose, IsProperFront};
ghost use Rattle.pool_syntax.specs.Spelled.{is_spelled};
ghost use Rattle.pool_syntax.specs.TreeOf.{program_of};
ghost use Rattle.pool_printer.specs.Canonical.{canonical};

use crate::declarations::classes;
use crate::token_writer::{Progress, put};
use pool_outside::{Sink, WriteFault};
use pool_syntax::Program;
use run_types::Names;

/// Writes the canonical text of the program to the sink. It allocates nothing. The error comes if a write fails; the
/// sink then has a proper prefix of the text, and nothing more is written.
pub fn print<K: Sink>(program: &Program, names: &Names, sink: &mut K) -> Result<(), WriteFault>
    requires spelled { is_spelled names.now (program_of program.now) ≡ true }
    ensures whole { OnOk result (K.written sink.new ≡ option_map (λ w. w ++ canonical names.now (program_of program.now)) (K.written sink.old)) }
    ensures front { OnErr result (IsProperFront (K.written sink.old) (canonical names.now (program_of program.now)) (K.written sink.new)) }
    ensures failed { OnErr result (Rose (K.faults sink.old) (K.faults sink.new)) }
    ensures no_fault { OnOk result (K.faults sink.new ≡ K.faults sink.old) }
    ensures faults_stay_or_rise { K.faults sink.old ≤ K.faults sink.new }
{
    let mut progress = Progress {
        last: None,
        failed: false,
    };
    classes(names, sink, &mut progress, program.classes.items());
    put(sink, &mut progress, b"\n");
    if progress.failed {
        Err(WriteFault)
    } else {
        Ok(())
    }
}
