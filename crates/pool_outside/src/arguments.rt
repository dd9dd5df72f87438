//! The arguments after a program's name.
ghost use Rattle.std.specs.Prelude.{◌≡◌, ◌≢◌, [], drop, IfOk, IfErr, IsErr, IsOkAnd};
ghost use Rattle.std.specs.IoError.{error_kind};
ghost use Rattle.std.specs.Vec.Iter.{into_iter_items};

use std::alloc::{AllocError, Global};
use std::io::ErrorKind;
use std::{env, io};

/// Reports the program's arguments after its name. If an argument is not text, it reports none, since no command has
/// such an argument. The error is out of memory.
pub fn args_after_program_name(
    alloc: Global,
    args: io::Result<env::Args>,
) -> Result<Vec<String>, AllocError>
    ensures words { IfOk args (λ a. IfOk result (λ words. words.items ≡ drop 1 (into_iter_items a))) }
    ensures not_text { IfErr args (λ e. error_kind e ≢ ErrorKind.OutOfMemory → IsOkAnd result (λ words. words.items ≡ [])) }
    ensures memory { IfErr args (λ e. error_kind e ≡ ErrorKind.OutOfMemory → IsErr result) }
{
    match args {
        Ok(args) => args.skip(1).collect(alloc),
        Err(error) if error.kind() == ErrorKind::OutOfMemory => Err(AllocError),
        Err(_) => Ok(Vec::new(alloc)),
    }
}
