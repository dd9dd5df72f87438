//! The code of methods, bodies, classes and the program.
ghost use Rattle.std.specs.Prelude.{◌≡◌, ◌≤◌, ◌<◌, ◌^◌, ◌++◌, [], ◌∷◌, length, map, IfOk, OnOk};
ghost use Rattle.pool_syntax.specs.TreeOf.{class_tree, expression_of, method_tree, program_of, statements_of};
ghost use Rattle.code_semantics.specs.Proper.{IsProper};
ghost use Rattle.pool_compile.specs.Code.{body_instrs, class_code, code, expression_words, method_code_of, method_instrs, more, names_of, post_code, statements_words};
ghost use Rattle.pool_compile.specs.Numberings.{numbering};
ghost use Rattle.pool_compile.specs.Small.{AreShort, FramesAreSmall, AreShortMethods, AreSmallMethods, IsShortClass, IsSmall, IsSmallClass, IsSmallMethod};

use crate::builder::Builder;
use crate::expressions::emit;
use crate::fault::CompileFault;
use crate::numbers::push_names;
use crate::operand_depth::{expression_words, more, statements_words};
use crate::scope::Numbers;
use crate::statements::emit_statements;
use class_check::Checked;
use code_semantics::{BodyCode, ClassCode, Instr, MethodCode, Unit};
use pool_syntax::{ClassDecl, Method, Stmt, Var};
use run_types::List;
use std::alloc::{AllocError, Global};

/// The names of a method's parameters and locals.
fn temps_of(alloc: Global, method: &Method) -> Result<Vec<u32>, AllocError>
    ensures { IfOk result (λ temps. temps.items ≡ names_of (method.now.params ++ method.now.locals)) }
{
    let mut temps = Vec::new(alloc);
    push_names(&mut temps, method.params.items())?;
    push_names(&mut temps, method.locals.items())?;
    Ok(temps)
}

/// The names of variables.
fn vars_of(alloc: Global, vars: &[Var]) -> Result<Vec<u32>, AllocError>
    ensures { IfOk result (λ names. names.items ≡ names_of vars.now) }
{
    let mut names = Vec::new(alloc);
    push_names(&mut names, vars)?;
    Ok(names)
}

/// Appends the code after the value of a method: `Ret`, or `Post`, the post statements and `Ret`.
fn emit_end(
    alloc: Global,
    code: &mut Builder,
    numbers: &Numbers<'_>,
    post: &[Stmt],
) -> Result<(), AllocError>
    ensures { OnOk result (code.new.code ≡ code.old.code ++ post_code (numbering numbers.now) (length code.old.code) (statements_of post.now)) }
{
    if post.is_empty() {
        return code.put(Instr::Ret);
    }
    code.put(Instr::Post)?;
    emit_statements(alloc, code, numbers, post)?;
    code.put(Instr::Ret)
}

/// The instructions of a method: its statements, its value, and its end.
fn method_code(
    alloc: Global,
    numbers: &Numbers<'_>,
    method: &Method,
) -> Result<List<Instr>, AllocError>
    ensures code { IfOk result (λ code. code ≡ method_instrs (numbering numbers.now) (statements_of method.now.body) (expression_of method.now.value) (statements_of method.now.post)) }
    ensures short { IfOk result (λ code. length code < 2 ^ 32) }
{
    let mut code = Builder::make(alloc);
    emit_statements(alloc, &mut code, numbers, method.body.items())?;
    emit(&mut code, numbers, &method.value)?;
    emit_end(alloc, &mut code, numbers, method.post.items())?;
    Ok(code.done())
}

/// The instructions of a body: its statements, and `Halt`.
fn body_code(alloc: Global, numbers: &Numbers<'_>, body: &[Stmt]) -> Result<List<Instr>, AllocError>
    ensures code { IfOk result (λ code. code ≡ body_instrs (numbering numbers.now) (statements_of body.now)) }
    ensures short { IfOk result (λ code. length code < 2 ^ 32) }
{
    let mut code = Builder::make(alloc);
    emit_statements(alloc, &mut code, numbers, body)?;
    code.put(Instr::Halt)?;
    Ok(code.done())
}

fn compile_method(alloc: Global, vars: &[u32], method: &Method) -> Result<MethodCode, AllocError>
    requires few { length vars.now < 2 ^ 32 }
    requires small { IsSmallMethod (method_tree method.now) }
    ensures code { IfOk result (λ m. m ≡ method_code_of vars.now (method_tree method.now)) }
    ensures short { IfOk result (λ m. length m.code < 2 ^ 32) }
{
    let temps = temps_of(alloc, method)?;
    let words = more(
        statements_words(method.body.items()),
        more(
            expression_words(&method.value),
            statements_words(method.post.items()) + 1,
        ),
    );
    let count = temps.len() as u32;
    let numbers = Numbers {
        temps: &temps,
        vars,
    };
    Ok(MethodCode {
        name: method.name.name,
        params: method.params.items().len() as u32,
        temps: count,
        frame_words: count + words,
        code: method_code(alloc, &numbers, method)?,
    })
}

fn compile_methods(
    alloc: Global,
    vars: &[u32],
    methods: &[Method],
) -> Result<List<MethodCode>, AllocError>
    requires few { length vars.now < 2 ^ 32 }
    requires small { AreSmallMethods (map method_tree methods.now) }
    ensures code { IfOk result (λ list. list ≡ map (method_code_of vars.now) (map method_tree methods.now)) }
    ensures short { IfOk result (λ list. AreShortMethods list) }
{
    let mut list = List::make(alloc);
    for method in methods {
        let code = compile_method(alloc, vars, method)?;
        if let Err(_) = list.push(code) {
            return Err(AllocError);
        }
    }
    Ok(list)
}

fn compile_class(alloc: Global, class: &ClassDecl) -> Result<ClassCode, AllocError>
    requires small { IsSmallClass (class_tree class.now) }
    ensures code { IfOk result (λ k. k ≡ class_code (class_tree class.now)) }
    ensures short { IfOk result (λ k. IsShortClass k) }
{
    let vars = vars_of(alloc, class.vars.items())?;
    let methods = compile_methods(alloc, &vars, class.methods.items())?;
    let numbers = Numbers {
        temps: &[],
        vars: &vars,
    };
    Ok(ClassCode {
        name: class.name.name,
        vars: vars.len() as u32,
        methods,
        body: BodyCode {
            frame_words: statements_words(class.body.items()),
            code: body_code(alloc, &numbers, class.body.items())?,
        },
    })
}

fn compile_classes(alloc: Global, classes: &[ClassDecl]) -> Result<List<ClassCode>, AllocError>
    requires small { IsSmall (map class_tree classes.now) }
    ensures code { IfOk result (λ list. list ≡ code (map class_tree classes.now)) }
    ensures short { IfOk result (λ list. AreShort list) }
{
    let mut list = List::make(alloc);
    for class in classes {
        let code = compile_class(alloc, class)?;
        if let Err(_) = list.push(code) {
            return Err(AllocError);
        }
    }
    Ok(list)
}

/// Compiles a checked program to a unit, with a copy of its names.
/// Reports an error if out of memory, or if a body or a method has 2^32 instructions or more.
/// A forward jump is patched after the code that it skips is emitted.
/// So time and memory are proportional to the program.
pub fn compile(alloc: Global, program: &Checked<'_>) -> Result<Unit, CompileFault>
    ensures names { IfOk result (λ unit. unit.names ≡ program.now.names.now) }
    ensures code { IfOk result (λ unit. unit.classes ≡ code (program_of program.now.program.now)) }
    ensures short { IfOk result (λ unit. AreShort unit.classes) }
    ensures proper { IfOk result (λ unit. IsProper unit) }
    ensures frames { IfOk result (λ unit. FramesAreSmall unit.classes) }
{
    let names = program.names.copy()?;
    let classes = compile_classes(alloc, program.program.classes.items())?;
    Ok(Unit { names, classes })
}
