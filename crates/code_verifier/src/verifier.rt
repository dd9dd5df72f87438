//! The verifier of object code files.
ghost use Rattle.std.specs.Prelude.{◌≡◌, ◌⊎◌, ℕ, length, IfOk, IsOk, IsErr, Err};
ghost use Rattle.code_semantics.specs.Shaped.{IsShaped};
ghost use Rattle.code_typing.specs.Verified.{IsVerified};
ghost use Rattle.code_typing.specs.Faults.{IsBadHeading, IsBadCode};
ghost use Rattle.code_verifier.specs.declared.fault.VerifyFault.TheVariants as AFault;

use crate::fault::VerifyFault;
use crate::judgement::judge;
use crate::verified::Verified;
use code_semantics::UnitFile;
use std::alloc::Global;

/// Verifies a file: returns it as verified, or reports its first fault.
/// `Header` reports the first heading that breaks a rule, or that there is no class.
/// `Code` reports the first code that is not well sorted, if no heading breaks a rule.
/// `Memory` reports out of memory, and says nothing about the file.
/// Time is at most proportional to n log n for a file of size n.
/// Memory is proportional to the number of classes and the longest code.
pub fn verify(alloc: Global, file: &UnitFile) -> Result<Verified<'_>, VerifyFault>
    requires { IsShaped file.now }
    ensures same { IfOk result (λ v. v.file.now ≡ file.now) }
    ensures good { IsOk result → IsVerified file.now }
    ensures header { (j : ℕ) → result ≡ Err (AFault.Header j) → ((length file.now.unit.classes ≡ 0) × (j ≡ 0)) ⊎ IsBadHeading file.now j }
    ensures code { (j i : ℕ) → result ≡ Err (AFault.Code j i) → IsBadCode file.now j i }
    ensures only_good { IsVerified file.now → IsErr result → result ≡ Err AFault.Memory }
    ensures only_empty { length file.now.unit.classes ≡ 0 → (result ≡ Err (AFault.Header 0)) ⊎ (result ≡ Err AFault.Memory) }
    ensures only_header { (j : ℕ) → IsBadHeading file.now j → (result ≡ Err (AFault.Header j)) ⊎ (result ≡ Err AFault.Memory) }
    ensures only_code { (j i : ℕ) → IsBadCode file.now j i → (result ≡ Err (AFault.Code j i)) ⊎ (result ≡ Err AFault.Memory) }
{
    match judge(alloc, file) {
        Ok(()) => Ok(Verified { file }),
        Err(fault) => Err(fault),
    }
}
