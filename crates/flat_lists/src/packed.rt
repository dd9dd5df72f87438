//! Numbers in units of 16 bits. Most numbers take one unit.
ghost use Rattle.std.specs.Prelude.{◌≡◌, ◌<◌, [], ◌∷◌, ◌++◌, length, None, IfOk, IfSome, OnOk, true, false};
ghost use Rattle.flat_lists.specs.Units.{numbers_of, units_of};

use std::alloc::{AllocError, Global};

/// The first number of these units, and the units after it. None if there is none.
fn first(units: &[u16]) -> Option<(u32, &[u16])>
    ensures none { result ≡ None → numbers_of units.now ≡ [] }
    ensures some { IfSome result (λ f. numbers_of units.now ≡ f.0 ∷ numbers_of f.1.now) }
    ensures less { IfSome result (λ f. length f.1.now < length units.now) }
{
    match units {
        [65535, high, low, rest @ ..] => Some((u32::from(*high) * 65536 + u32::from(*low), rest)),
        [65535, ..] | [] => None,
        [unit, rest @ ..] => Some((u32::from(*unit), rest)),
    }
}

/// Adds the units of a number. An error means out of memory.
fn push_units(units: &mut Vec<u16>, number: u32) -> Result<(), AllocError>
    ensures { OnOk result (units.new.items ≡ units.old.items ++ units_of number) }
{
    match u16::try_from(number) {
        Ok(unit) if unit != 65535 => units.push(unit)?,
        _ => {
            let halves = [65535, (number / 65536) as u16, (number % 65536) as u16];
            units.extend_from_slice(&halves)?;
        }
    }
    Ok(())
}

/// These numbers as units: one for a number below 65,535, and three for another one. An error means out of memory.
pub fn pack(alloc: Global, numbers: &[u32]) -> Result<Vec<u16>, AllocError>
    ensures { IfOk result (λ v. numbers_of v.items ≡ numbers.now) }
{
    let mut units = Vec::with_capacity(alloc, numbers.len())?;
    for number in numbers {
        push_units(&mut units, *number)?;
    }
    Ok(units)
}

/// The numbers that these units stand for. Units at the end that are not a whole number stand for none. An error means
/// out of memory.
pub fn unpack(alloc: Global, units: &[u16]) -> Result<Vec<u32>, AllocError>
    ensures { IfOk result (λ v. v.items ≡ numbers_of units.now) }
{
    let mut numbers = Vec::with_capacity(alloc, units.len())?;
    let mut rest = units;
    while let Some((number, after)) = first(rest) {
        numbers.push(number)?;
        rest = after;
    }
    Ok(numbers)
}

/// Whether these units stand for these numbers.
pub fn is_packed(units: &[u16], numbers: &[u32]) -> bool
    ensures same { result ≡ true → numbers_of units.now ≡ numbers.now }
    ensures other { result ≡ false → ¬ (numbers_of units.now ≡ numbers.now) }
{
    let mut rest = units;
    let mut left = numbers;
    while let Some((number, more)) = left.split_first() {
        match first(rest) {
            Some((found, after)) if found == *number => rest = after,
            _ => return false,
        }
        left = more;
    }
    first(rest).is_none()
}
