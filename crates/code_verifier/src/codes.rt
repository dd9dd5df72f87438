//! Checks the codes of methods and bodies.
ghost use Rattle.std.specs.Prelude.{◌≡◌, not, ◌<◌, ◌≤◌, ◌^◌, length, Some, None, IfOk};
ghost use Rattle.code_semantics.specs.Shaped.{IsShaped};
ghost use Rattle.code_typing.specs.Verdict.{Code, bad_code, bad_codes, bad_heading, bad_method, fault_if, is_well_sorted};
ghost use Rattle.code_verifier.specs.Scopes.{declared_of, scope_of};
ghost use Rattle.code_typing.specs.Sorts.{declared_at, scope_by};
ghost use Rattle.code_verifier.specs.VerdictAnswer.{Judged};

use crate::circles::has_no_circle;
use crate::classes::{Class, kinds_at};
use crate::existing::{do_exist, ends_right};
use crate::fault::VerifyFault;
use crate::index::Classes;
use crate::scope::Scope;
use crate::spread::has_table;
use code_semantics::{Instr, MethodCode, MethodKinds};
use code_typing::value_sort;
use std::alloc::{AllocError, Global};

/// Whether a code is well sorted, and `words` is the number of words of its frames. Reports an error if out of memory.
fn is_well_sorted(
    alloc: Global,
    scope: &Scope<'_>,
    words: u32,
    code: &[Instr],
) -> Result<bool, AllocError>
    ensures { IfOk result (λ b. b ≡ is_well_sorted (scope_of scope.now) words code.now) }
{
    if !do_exist(scope, code) || !ends_right(scope, code) {
        return Ok(false);
    }
    if !has_no_circle(alloc, code)? {
        return Ok(false);
    }
    has_table(alloc, scope, words, code)
}

/// Whether the code of a method is well sorted.
fn is_method_sorted(
    alloc: Global,
    classes: &Classes<'_>,
    class: &Class<'_>,
    method: &MethodCode,
    kinds: &MethodKinds,
) -> Result<bool, AllocError>
    ensures { IfOk result (λ b. b ≡ is_well_sorted (scope_by classes.now.file.now (declared_of class.now) (Some kinds.now)) method.now.frame_words method.now.code) }
{
    let scope = Scope {
        classes,
        class,
        temps: kinds.temps.items(),
        value: Some(value_sort(kinds.result)),
    };
    is_well_sorted(alloc, &scope, method.frame_words, method.code.items())
}

/// Whether the code of a body is well sorted.
fn is_body_sorted(
    alloc: Global,
    classes: &Classes<'_>,
    class: &Class<'_>,
) -> Result<bool, AllocError>
    ensures { IfOk result (λ b. b ≡ is_well_sorted (scope_by classes.now.file.now (declared_of class.now) None) class.now.code.now.body.frame_words class.now.code.now.body.code) }
{
    let scope = Scope {
        classes,
        class,
        temps: &[],
        value: None,
    };
    let body = &class.code.body;
    is_well_sorted(alloc, &scope, body.frame_words, body.code.items())
}

/// Checks the methods of a class in order. Reports the first that is not well sorted.
fn check_methods(
    alloc: Global,
    classes: &Classes<'_>,
    place: u32,
    class: &Class<'_>,
) -> Result<(), VerifyFault>
    requires { length class.now.code.now.methods ≤ 64 }
    ensures { Judged result (bad_method classes.now.file.now (declared_of class.now) place 0 class.now.code.now.methods class.now.kinds.now.methods) }
{
    let kinds = class.kinds.methods.items();
    for (i, method) in class.code.methods.items().iter().enumerate() {
        let kinds = match kinds_at(kinds, i) {
            Some(kinds) => kinds,
            None => return Ok(()),
        };
        if !is_method_sorted(alloc, classes, class, method, kinds)? {
            return Err(VerifyFault::Code {
                class: place,
                method: i as u32,
            });
        }
    }
    Ok(())
}

/// Checks the body of a class. Its number is the number of methods of the class.
#[tactic(auto, using(crate::proofs::CombinedVerdicts::wrong_told, crate::proofs::CombinedVerdicts::right_told))]
fn check_body(
    alloc: Global,
    classes: &Classes<'_>,
    place: u32,
    class: &Class<'_>,
) -> Result<(), VerifyFault>
    requires { length class.now.code.now.methods ≤ 64 }
    ensures { Judged result
        (fault_if (not (is_well_sorted (scope_by classes.now.file.now (declared_of class.now) None) class.now.code.now.body.frame_words class.now.code.now.body.code))
        (Code place (length class.now.code.now.methods))) }
{
    if !is_body_sorted(alloc, classes, class)? {
        return Err(VerifyFault::Code {
            class: place,
            method: class.code.methods.items().len() as u32,
        });
    }
    Ok(())
}

/// Checks the methods of a class, and then its body.
fn check_class(
    alloc: Global,
    classes: &Classes<'_>,
    place: u32,
    class: &Class<'_>,
) -> Result<(), VerifyFault>
    requires { length class.now.code.now.methods ≤ 64 }
    ensures { Judged result (bad_code classes.now.file.now place (Some (declared_of class.now))) }
{
    match check_methods(alloc, classes, place, class) {
        Ok(()) => check_body(alloc, classes, place, class),
        Err(fault) => Err(fault),
    }
}

/// Checks the codes of the class at a place.
fn check_class_at(alloc: Global, classes: &Classes<'_>, place: usize) -> Result<(), VerifyFault>
    requires shaped { IsShaped classes.now.file.now }
    requires headings { bad_heading classes.now.file.now (length classes.now.file.now.unit.classes) 0 ≡ None }
    requires there { place < length classes.now.file.now.unit.classes }
    ensures { Judged result (bad_code classes.now.file.now place (declared_at classes.now.file.now place)) }
{
    match classes.class(place) {
        None => Ok(()),
        Some(class) => check_class(alloc, classes, place as u32, &class),
    }
}

/// Checks the codes of all classes in order.
/// Reports the first code that is not well sorted, or `Memory` if out of memory.
pub fn check_codes(alloc: Global, classes: &Classes<'_>) -> Result<(), VerifyFault>
    requires shaped { IsShaped classes.now.file.now }
    requires headings { bad_heading classes.now.file.now (length classes.now.file.now.unit.classes) 0 ≡ None }
    ensures { Judged result (bad_codes classes.now.file.now (length classes.now.file.now.unit.classes) 0) }
{
    for place in 0..classes.file.unit.classes.items().len() {
        match check_class_at(alloc, classes, place) {
            Ok(()) => {}
            Err(fault) => return Err(fault),
        }
    }
    Ok(())
}
