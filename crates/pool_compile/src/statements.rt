//! The code of statements.
ghost use Rattle.std.specs.Prelude.{◌≡◌, ◌<◌, [], ◌∷◌, ◌++◌, length, map, OnOk, IfOk};
ghost use Rattle.std.specs.List.{All};
ghost use Rattle.pool_syntax.specs.Terms.{Select as SelectOf};
ghost use Rattle.pool_syntax.specs.TreeOf.{statement_of, statements_of, alternatives_of};
ghost use Rattle.pool_compile.specs.Code.{alternatives_at, alternatives_code, answer_names, guards_code, statement_code, statements_code};
ghost use Rattle.pool_compile.specs.Jumps.{filled, jumps_at};
ghost use Rattle.pool_compile.specs.Numberings.{numbering};

use crate::builder::Builder;
use crate::expressions::{emit, emit_all};
use crate::scope::Numbers;
use code_semantics::{AltCode, Instr};
use pool_syntax::{Alt, Named, Stmt};
use run_types::{List, NameId};
use std::alloc::{AllocError, Global};

/// The names of a list. Reports an error if out of memory.
fn names_of(alloc: Global, listed: &[Named]) -> Result<List<NameId>, AllocError>
    ensures { IfOk result (λ names. names ≡ map (λ n. n.name) listed.now) }
{
    let mut names = List::make(alloc);
    for named in listed {
        if let Err(_) = names.push(named.name) {
            return Err(AllocError);
        }
    }
    Ok(names)
}

/// The method names of an alternative; `None` if it is plain. Reports an error if out of memory.
fn answer_of(
    alloc: Global,
    answer: &Option<List<Named>>,
) -> Result<Option<List<NameId>>, AllocError>
    ensures { IfOk result (λ names. names ≡ answer_names answer.now) }
{
    match answer {
        None => Ok(None),
        Some(listed) => Ok(Some(names_of(alloc, listed.items())?)),
    }
}

/// Appends an alternative. Reports an error if out of memory.
fn add(targets: &mut List<AltCode>, target: AltCode) -> Result<(), AllocError>
    ensures { OnOk result (targets.new ≡ targets.old ++ target ∷ []) }
{
    match targets.push(target) {
        Ok(()) => Ok(()),
        Err(_) => Err(AllocError),
    }
}

/// Appends the code of the guards. Reports an error if out of memory.
fn emit_guards(code: &mut Builder, numbers: &Numbers<'_>, alts: &[Alt]) -> Result<(), AllocError>
    ensures { OnOk result (code.new.code ≡ code.old.code ++ guards_code (numbering numbers.now) (alternatives_of alts.now)) }
{
    for alt in alts {
        emit(code, numbers, &alt.guard)?;
    }
    Ok(())
}

/// Replaces the instruction at each of these places by a jump to the place `end`.
fn fill(code: &mut Builder, places: &[u32], end: u32)
    requires { All (λ p. p < length code.old.code) places.now }
    ensures { code.new.code ≡ filled code.old.code places.now end }
{
    for place in places {
        code.set(*place, Instr::Jump(end));
    }
}

/// Appends the code of a statement. A forward jump is patched after the code that it skips is emitted.
#[cycle(statements)]
fn emit_statement(
    alloc: Global,
    code: &mut Builder,
    numbers: &Numbers<'_>,
    stmt: &Stmt,
) -> Result<(), AllocError>
    ensures { OnOk result (code.new.code ≡ code.old.code ++ statement_code (numbering numbers.now) (length code.old.code) (statement_of stmt.now)) }
{
    match stmt {
        Stmt::Assign { target, value } => {
            emit(code, numbers, value)?;
            code.put(numbers.store(target.name))
        }
        Stmt::Write { value } => {
            emit(code, numbers, value)?;
            code.put(Instr::Write)
        }
        Stmt::WriteText { text } => code.put(Instr::WriteText(*text)),
        Stmt::Do { value } => {
            emit(code, numbers, value)?;
            code.put(Instr::Pop)
        }
        Stmt::Async { to, method, args } => {
            emit(code, numbers, to)?;
            emit_all(code, numbers, args.items())?;
            code.put(Instr::Async {
                method: method.name,
                count: args.items().len() as u32,
            })
        }
        Stmt::If { cond, yes, no } => {
            emit(code, numbers, cond)?;
            let branch = code.place();
            code.put(Instr::Jump(0))?;
            emit_statements(alloc, code, numbers, yes.items())?;
            let jump = code.place();
            code.put(Instr::Jump(0))?;
            emit_statements(alloc, code, numbers, no.items())?;
            code.set(branch, Instr::Branch(jump + 1));
            code.set(jump, Instr::Jump(code.place()));
            Ok(())
        }
        Stmt::While { cond, body } => {
            let front = code.place();
            code.put(Instr::Loop)?;
            emit(code, numbers, cond)?;
            let branch = code.place();
            code.put(Instr::Jump(0))?;
            emit_statements(alloc, code, numbers, body.items())?;
            code.put(Instr::Jump(front))?;
            code.set(branch, Instr::Branch(code.place()));
            Ok(())
        }
        Stmt::Answer { names } => {
            let names = names_of(alloc, names.items())?;
            code.put(Instr::Answer { names })
        }
        Stmt::Select { alts } => emit_select(alloc, code, numbers, alts.items()),
    }
}

/// Appends the code of statements. Reports an error if out of memory, or if there would be 2^32 instructions.
#[cycle(statements)]
pub fn emit_statements(
    alloc: Global,
    code: &mut Builder,
    numbers: &Numbers<'_>,
    stmts: &[Stmt],
) -> Result<(), AllocError>
    ensures { OnOk result (code.new.code ≡ code.old.code ++ statements_code (numbering numbers.now) (length code.old.code) (statements_of stmts.now)) }
{
    for stmt in stmts {
        emit_statement(alloc, code, numbers, stmt)?;
    }
    Ok(())
}

/// Appends the code of a select: the guards, the choice, and the
/// list of each alternative with a jump to the end of the select.
#[cycle(statements)]
fn emit_select(
    alloc: Global,
    code: &mut Builder,
    numbers: &Numbers<'_>,
    alts: &[Alt],
) -> Result<(), AllocError>
    ensures { OnOk result (code.new.code ≡ code.old.code ++ statement_code (numbering numbers.now) (length code.old.code) (SelectOf (alternatives_of alts.now))) }
{
    emit_guards(code, numbers, alts)?;
    let select = code.place();
    code.put(Instr::Jump(0))?;
    let mut targets = List::make(alloc);
    let mut jumps = Vec::new(alloc);
    emit_works(alloc, code, numbers, alts, &mut targets, &mut jumps)?;
    fill(code, &jumps, code.place());
    code.set(select, Instr::Select { alts: targets });
    Ok(())
}

/// Appends the list of each alternative, followed by a jump that `fill` patches later.
/// Adds the place of each list to `targets`, and the place of each jump to `jumps`.
#[cycle(statements)]
fn emit_works(
    alloc: Global,
    code: &mut Builder,
    numbers: &Numbers<'_>,
    alts: &[Alt],
    targets: &mut List<AltCode>,
    jumps: &mut Vec<u32>,
) -> Result<(), AllocError>
    ensures code { OnOk result (code.new.code ≡ code.old.code ++ alternatives_code (numbering numbers.now) (length code.old.code) 0 (alternatives_of alts.now)) }
    ensures targets { OnOk result (targets.new ≡ targets.old ++ alternatives_at (numbering numbers.now) (length code.old.code) (alternatives_of alts.now)) }
    ensures jumps { OnOk result (jumps.new.items ≡ jumps.old.items ++ jumps_at (numbering numbers.now) (length code.old.code) (alternatives_of alts.now)) }
{
    for alt in alts {
        let target = AltCode {
            answer: answer_of(alloc, &alt.answer)?,
            at: code.place(),
        };
        add(targets, target)?;
        emit_statements(alloc, code, numbers, alt.work.items())?;
        jumps.push(code.place())?;
        code.put(Instr::Jump(0))?;
    }
    Ok(())
}
