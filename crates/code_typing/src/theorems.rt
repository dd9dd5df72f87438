//! Theorems about the verdict on object code files. Each is the contract of a function with an empty body.
ghost use Rattle.std.specs.Prelude.{◌≡◌, ◌⊎◌, ℕ, length};
ghost use Rattle.code_semantics.specs.declared.file.UnitFile.{UnitFile};
ghost use Rattle.code_typing.specs.Faults.{IsBadHeading, IsBadCode};
ghost use Rattle.code_typing.specs.Verdict.{Good, Header, Code, verdict};
ghost use Rattle.code_typing.specs.Verified.{IsVerified};

/// The computed verdict on a file is `Good` if and only if the file is verified.
/// It is `Header j` if and only if class j has the first heading that breaks a rule, or j is 0 and there is no class.
/// It is `Code j i` if and only if no heading breaks a rule, and code i of class j is the first not well sorted.
pub fn the_verdict_is_exact()
    ensures verified { (f : UnitFile) → verdict f ≡ Good → IsVerified f }
    ensures good { (f : UnitFile) → IsVerified f → verdict f ≡ Good }
    ensures header { (f : UnitFile) (j : ℕ) → verdict f ≡ Header j → ((length f.unit.classes ≡ 0) × (j ≡ 0)) ⊎ IsBadHeading f j }
    ensures no_class { (f : UnitFile) → length f.unit.classes ≡ 0 → verdict f ≡ Header 0 }
    ensures first_header { (f : UnitFile) (j : ℕ) → IsBadHeading f j → verdict f ≡ Header j }
    ensures code { (f : UnitFile) (j i : ℕ) → verdict f ≡ Code j i → IsBadCode f j i }
    ensures first_code { (f : UnitFile) (j i : ℕ) → IsBadCode f j i → verdict f ≡ Code j i }
{}
