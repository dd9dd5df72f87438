//! The numbers of variables.
ghost use Rattle.std.specs.Prelude.{◌≡◌, ◌≤◌, ◌<◌, ◌^◌, ◌++◌, length, OnOk, IfOk};
ghost use Rattle.pool_syntax.specs.Typing.{contains};
ghost use Rattle.pool_compile.specs.Code.{load, names_of, number_of, store};
ghost use Rattle.pool_compile.specs.Numberings.{numbering};

use crate::scope::Numbers;
use code_semantics::Instr;
use pool_syntax::Var;
use run_types::NameId;
use std::alloc::AllocError;

/// The place of the first name that equals `name`, from 0. If none does, it is the number of names.
fn number(names: &[u32], name: NameId) -> u32
    requires { length names.now < 2 ^ 32 }
    ensures place { result ≡ number_of names.now name.0 }
    ensures within { result ≤ length names.now }
{
    if let Some((first, rest)) = names.split_first() {
        if *first == name.0 {
            0
        } else {
            number(rest, name) + 1
        }
    } else {
        0
    }
}

fn is_among(names: &[u32], name: NameId) -> bool
    ensures { result ≡ contains names.now name.0 }
{
    if let Some((first, rest)) = names.split_first() {
        if *first == name.0 {
            true
        } else {
            is_among(rest, name)
        }
    } else {
        false
    }
}

impl Numbers<'_> {
    /// The instruction that loads a name. A parameter or local hides a variable.
    pub fn load(&self, name: NameId) -> Instr
        ensures { result ≡ load (numbering self.now) name.0 }
    {
        if is_among(self.temps, name) {
            Instr::LoadT(number(self.temps, name))
        } else {
            Instr::LoadI(number(self.vars, name))
        }
    }

    /// The instruction that stores into a name. A parameter or local hides a variable.
    pub fn store(&self, name: NameId) -> Instr
        ensures { result ≡ store (numbering self.now) name.0 }
    {
        if is_among(self.temps, name) {
            Instr::StoreT(number(self.temps, name))
        } else {
            Instr::StoreI(number(self.vars, name))
        }
    }
}

/// Appends the names of variables. Reports an error if out of memory.
pub fn push_names(names: &mut Vec<u32>, vars: &[Var]) -> Result<(), AllocError>
    ensures { OnOk result (names.new.items ≡ names.old.items ++ names_of vars.now) }
{
    for var in vars {
        names.push(var.name.0)?;
    }
    Ok(())
}
