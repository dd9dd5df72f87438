//! The code of expressions.
ghost use Rattle.std.specs.Prelude.{◌≡◌, ◌++◌, OnOk};
ghost use Rattle.pool_syntax.specs.TreeOf.{expression_of, expressions_of};
ghost use Rattle.pool_compile.specs.Code.{expression_code, expressions_code};
ghost use Rattle.pool_compile.specs.Numberings.{numbering};

use crate::builder::Builder;
use crate::scope::Numbers;
use code_semantics::Instr;
use pool_syntax::Expr;
use std::alloc::AllocError;

/// Appends the code of an expression. The code pushes the value. Reports an error if out of memory, or if there would
/// be 2^32 instructions.
#[cycle(expressions)]
pub fn emit(code: &mut Builder, numbers: &Numbers<'_>, expr: &Expr) -> Result<(), AllocError>
    ensures { OnOk result (code.new.code ≡ code.old.code ++ expression_code (numbering numbers.now) (expression_of expr.now)) }
{
    match expr {
        Expr::Int { value, .. } => code.put(Instr::PushInt(*value)),
        Expr::Bool { value, .. } => code.put(Instr::PushBool(*value)),
        Expr::Nil { .. } => code.put(Instr::PushNil),
        Expr::Me { .. } => code.put(Instr::SelfRef),
        Expr::Var { name, .. } => code.put(numbers.load(*name)),
        Expr::New { class, .. } => code.put(Instr::New(*class)),
        Expr::Unary { op, arg, .. } => {
            emit(code, numbers, arg)?;
            code.put(Instr::Oper(*op))
        }
        Expr::Binary {
            op,
            left,
            right,
            ..
        } => {
            emit(code, numbers, left)?;
            emit(code, numbers, right)?;
            code.put(Instr::Oper(*op))
        }
        Expr::Call { method, args, .. } => {
            emit_all(code, numbers, args.items())?;
            code.put(Instr::Call(*method))
        }
        Expr::Send {
            to,
            method,
            args,
            ..
        } => {
            emit(code, numbers, to)?;
            emit_all(code, numbers, args.items())?;
            code.put(Instr::Send {
                method: *method,
                count: args.items().len() as u32,
            })
        }
    }
}

/// Appends the code of expressions, one after another. Reports an error if out of memory, or if there would be 2^32
/// instructions.
#[cycle(expressions)]
pub fn emit_all(code: &mut Builder, numbers: &Numbers<'_>, exprs: &[Expr]) -> Result<(), AllocError>
    ensures { OnOk result (code.new.code ≡ code.old.code ++ expressions_code (numbering numbers.now) (expressions_of exprs.now)) }
{
    for expr in exprs {
        emit(code, numbers, expr)?;
    }
    Ok(())
}
