//! Verified files.
ghost use Rattle.std.specs.Prelude.{◌≡◌};
ghost use Rattle.code_semantics.specs.Shaped.{IsShaped};
ghost use Rattle.code_typing.specs.Verdict.{Good, verdict};
ghost use Rattle.code_typing.proofs.Laws.{shaped_is_fact};

use code_semantics::UnitFile;

/// A verified file. In its code each operand is of a sort that its instruction allows.
#[derive(Clone, Copy)]
pub struct Verified<'a> {
    pub file: &'a UnitFile,
    pub ghost shaped: { IsShaped file.now } by { shaped_is_fact file.now },
    pub ghost verified: { verdict file.now ≡ Good },
}
