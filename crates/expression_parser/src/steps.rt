//! Steps that the functions of the parser share: they return a fault and append an item to a list.
ghost use Rattle.std.specs.Prelude.{◌≡◌, ◌++◌, ◌∷◌, [], IfOk, IfErr};
ghost use Rattle.expression_parser.specs.declared.fault.SyntaxFault.TheVariants.{Memory};

use crate::fault::SyntaxFault;
use run_types::List;

/// The result of a call of the parser. If it is a fault, the values named after the call are dropped and the fault is
/// returned.
macro_rules! read {
    ($call:expr) => {
        match $call {
            Ok(read) => read,
            Err(fault) => return Err(fault),
        }
    };
    ($call:expr, $($owned:ident),+) => {
        match $call {
            Ok(read) => read,
            Err(fault) => {
                $(drop($owned);)+
                return Err(fault);
            }
        }
    };
}

pub(crate) use read;

/// Appends the item to the list, or reports that memory ran out.
pub fn pushed<T: Drop>(mut list: List<T>, item: T) -> Result<List<T>, SyntaxFault>
    ensures ok { IfOk result (λ all. all ≡ list ++ item ∷ []) }
    ensures err { IfErr result (λ e. e ≡ Memory) }
{
    match list.push(item) {
        Ok(()) => Ok(list),
        Err(failed) => {
            drop(failed);
            Err(SyntaxFault::Memory)
        }
    }
}
