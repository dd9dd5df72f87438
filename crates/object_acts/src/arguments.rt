//! The arguments of the redex.
ghost use Rattle.std.specs.Prelude.{◌≡◌};
ghost use Rattle.run_types.specs.Same.{are_same};
ghost use Rattle.stepper_terms.specs.Reduced.{values};
ghost use Rattle.stepper_terms.specs.Arguments.{now_args};

use operators::same;
use run_types::Value;
use stepper_terms::contexts::{Continuation, Focus, Operand, Ready, Task};

/// Whether these operands have these values.
fn same_operands(operands: &[Operand], args: &[Value]) -> bool
    ensures { result ≡ are_same (values operands.now) args.now }
{
    let mut operands = operands;
    let mut args = args;
    while let Some((operand, more)) = operands.split_first() {
        match args.split_first() {
            None => return false,
            Some((arg, others)) => {
                if !same(operand.value, *arg) {
                    return false;
                }
                args = others;
            }
        }
        operands = more;
    }
    args.is_empty()
}

/// Whether the redex has exactly these arguments. A redex without arguments has the empty list.
pub fn has_args(work: &Continuation<'_>, args: &[Value]) -> bool
    ensures { result ≡ are_same (now_args work.now.next) args.now }
{
    match &work.next {
        Focus::Expression { redex, .. } => match redex {
            Ready::Call { args: operands, .. } => same_operands(operands.as_slice(), args),
            Ready::Send { args: operands, .. } => same_operands(operands.as_slice(), args),
            _ => same_operands(&[], args),
        },
        Focus::Statement { task, .. } => match task {
            Task::Async { args: operands, .. } => same_operands(operands.as_slice(), args),
            _ => same_operands(&[], args),
        },
        _ => same_operands(&[], args),
    }
}
