//! Checks that the names and places of instructions exist, and that codes end right.
ghost use Rattle.std.specs.Prelude.{◌≡◌, length, nat_lt, nat_le, ◌&&◌};
ghost use Rattle.std.specs.List.{list_all, list_any};
ghost use Rattle.code_typing.specs.Verdict.{alternative_exists, answers_exist, does_exist, ends_right, is_halt, is_last, is_own, is_post, is_ret};
ghost use Rattle.code_verifier.specs.Scopes.{scope_of};

use crate::scope::Scope;
use crate::texts::{is_string_number, text_at};
use code_semantics::{AltCode, Instr};
use run_types::NameId;

/// The most arguments of a call.
const MOST_ARGUMENTS: u32 = 8;

/// Whether the class has each of the methods.
fn are_own(scope: &Scope<'_>, names: &[NameId]) -> bool
    ensures { result ≡ list_all (is_own (scope_of scope.now)) names.now }
{
    for name in names {
        if !scope.class.has(*name) {
            return false;
        }
    }
    true
}

fn alternative_exists(scope: &Scope<'_>, size: usize, alternative: &AltCode) -> bool
    ensures { result ≡ (nat_lt alternative.now.at size && answers_exist (scope_of scope.now) alternative.now.answer) }
{
    let place = (alternative.at as usize) < size;
    match &alternative.answer {
        None => place,
        Some(names) => place && are_own(scope, names.items()),
    }
}

fn alternatives_exist(scope: &Scope<'_>, code: &[Instr], alternatives: &[AltCode]) -> bool
    ensures { result ≡ list_all (alternative_exists (scope_of scope.now) code.now) alternatives.now }
{
    for alternative in alternatives {
        if !alternative_exists(scope, code.len(), alternative) {
            return false;
        }
    }
    true
}

/// Whether a method's name is in the table, and `count` is at most 8.
fn can_be_sent(scope: &Scope<'_>, method: NameId, count: u32) -> bool
    ensures { result ≡ (nat_lt method.0 (length (scope_of scope.now).file.unit.names) && nat_le count 8) }
{
    text_at(&scope.classes.file.unit.names, method).is_some() && count <= MOST_ARGUMENTS
}

/// Whether each name and place of an instruction exists.
fn does_exist(scope: &Scope<'_>, code: &[Instr], instr: &Instr) -> bool
    ensures { result ≡ does_exist (scope_of scope.now) code.now instr.now }
{
    match instr {
        Instr::Jump(at) | Instr::Branch(at) => (*at as usize) < code.len(),
        Instr::LoadI(number) | Instr::StoreI(number) => *number < scope.class.code.vars,
        Instr::LoadT(number) | Instr::StoreT(number) => (*number as usize) < scope.temps.len(),
        Instr::Call(method) => scope.class.has(*method),
        Instr::New(class) => scope.classes.place(*class).is_some(),
        Instr::Send { method, count } | Instr::Async { method, count } => {
            can_be_sent(scope, *method, *count)
        }
        Instr::WriteText(text) => is_string_number(&scope.classes.file.unit.names, *text),
        Instr::Answer { names } => are_own(scope, names.items()),
        Instr::Select { alts } => alternatives_exist(scope, code, alts.items()),
        Instr::PushInt(_)
        | Instr::PushBool(_)
        | Instr::PushNil
        | Instr::SelfRef
        | Instr::Oper(_)
        | Instr::Pop
        | Instr::Loop
        | Instr::Ret
        | Instr::Write
        | Instr::Post
        | Instr::Halt => true,
    }
}

/// Whether each name and place of the instructions of a code exists.
pub fn do_exist(scope: &Scope<'_>, code: &[Instr]) -> bool
    ensures { result ≡ list_all (does_exist (scope_of scope.now) code.now) code.now }
{
    for instr in code {
        if !does_exist(scope, code, instr) {
            return false;
        }
    }
    true
}

fn is_ret(instr: &Instr) -> bool
    ensures { result ≡ is_ret instr.now }
{
    matches!(instr, Instr::Ret)
}

fn is_post(instr: &Instr) -> bool
    ensures { result ≡ is_post instr.now }
{
    matches!(instr, Instr::Post)
}

fn is_halt(instr: &Instr) -> bool
    ensures { result ≡ is_halt instr.now }
{
    matches!(instr, Instr::Halt)
}

fn has_ret(code: &[Instr]) -> bool
    ensures { result ≡ list_any is_ret code.now }
{
    for instr in code {
        if is_ret(instr) {
            return true;
        }
    }
    false
}

fn has_post(code: &[Instr]) -> bool
    ensures { result ≡ list_any is_post code.now }
{
    for instr in code {
        if is_post(instr) {
            return true;
        }
    }
    false
}

fn has_halt(code: &[Instr]) -> bool
    ensures { result ≡ list_any is_halt code.now }
{
    for instr in code {
        if is_halt(instr) {
            return true;
        }
    }
    false
}

fn ends_in_ret(code: &[Instr]) -> bool
    ensures { result ≡ is_last is_ret code.now }
{
    match code.last() {
        None => false,
        Some(instr) => is_ret(instr),
    }
}

fn ends_in_halt(code: &[Instr]) -> bool
    ensures { result ≡ is_last is_halt code.now }
{
    match code.last() {
        None => false,
        Some(instr) => is_halt(instr),
    }
}

/// Whether a code ends right. A body ends in `Halt`, and has no `Ret` and no `Post`.
/// A method ends in `Ret`, and has no `Halt`.
pub fn ends_right(scope: &Scope<'_>, code: &[Instr]) -> bool
    ensures { result ≡ ends_right (scope_of scope.now).value code.now }
{
    match scope.value {
        None => ends_in_halt(code) && (!has_ret(code) && !has_post(code)),
        Some(_) => ends_in_ret(code) && !has_halt(code),
    }
}
