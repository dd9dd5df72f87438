//! The numbering of names.
ghost use Rattle.std.specs.Prelude.{◌<◌, ◌^◌, length};

/// The names of a method's parameters and locals, and of the variables of its class.
/// A name's place is its number, from 0.
#[derive(Clone, Copy)]
pub struct Numbers<'a> {
    pub temps: &'a [u32],
    pub vars: &'a [u32],
    pub ghost few_temps: { length temps.now < 2 ^ 32 },
    pub ghost few_vars: { length vars.now < 2 ^ 32 },
}
