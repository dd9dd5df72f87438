//! The verdict on a file.
ghost use Rattle.code_semantics.specs.Shaped.{IsShaped};
ghost use Rattle.code_typing.specs.Verdict.{verdict};
ghost use Rattle.code_verifier.specs.VerdictAnswer.{IsAnswer};

use crate::classes::places_of;
use crate::codes::check_codes;
use crate::fault::VerifyFault;
use crate::headings::bad_heading;
use crate::index::Classes;
use code_semantics::UnitFile;
use std::alloc::Global;

/// Checks the headings in order, and then the codes. Reports the first fault, or `Memory` if out of memory.
/// Time is at most proportional to n log n for a file of size n.
#[tactic(auto, using(crate::proofs::AnswerLaws::empty_told, crate::proofs::AnswerLaws::memory_told, crate::proofs::AnswerLaws::codes_told))]
pub fn judge(alloc: Global, file: &UnitFile) -> Result<(), VerifyFault>
    requires { IsShaped file.now }
    ensures { IsAnswer result (verdict file.now) }
{
    if file.unit.classes.items().len() == 0 {
        return Err(VerifyFault::Header { class: 0 });
    }
    let places = places_of(alloc, file.unit.classes.items())?;
    let classes = Classes {
        file,
        places: &places,
    };
    match bad_heading(&classes) {
        Some(class) => Err(VerifyFault::Header { class }),
        None => check_codes(alloc, &classes),
    }
}
