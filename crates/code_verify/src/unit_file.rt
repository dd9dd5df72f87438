//! The object code file of a program: its code, and the kinds that it declares.
ghost use Rattle.std.specs.Prelude.{◌≡◌, ◌++◌, map, IfOk, OnOk};
ghost use Rattle.pool_syntax.specs.TreeOf.{class_tree, method_tree, program_of};
ghost use Rattle.code_semantics.specs.Shaped.{IsListOf, IsShaped, IsShort, IsShortList};
ghost use Rattle.compiler_correctness.specs.DeclaredKinds.{class_kinds, file_of, kinds_of, method_kinds};
ghost use Rattle.code_typing.specs.Verdict.{Good, verdict};

use class_check::Checked;
use code_semantics::{ClassKinds, Kinds, MethodKinds, UnitFile};
use pool_compile::compile;
use pool_syntax::{ClassDecl, Method, Var};
use run_types::{Kind, List};
use std::alloc::{AllocError, Global};

/// Appends the kinds of variables. Reports an error if out of memory.
fn push_kinds(kinds: &mut List<Kind>, vars: &[Var]) -> Result<(), AllocError>
    ensures { OnOk result (kinds.new ≡ kinds.old ++ kinds_of vars.now) }
{
    for var in vars {
        if let Err(_) = kinds.push(var.kind) {
            return Err(AllocError);
        }
    }
    Ok(())
}

/// The kinds of a method's parameters and locals, and of its result.
fn method_kinds(alloc: Global, method: &Method) -> Result<MethodKinds, AllocError>
    ensures { IfOk result (λ k. k ≡ method_kinds (method_tree method.now)) }
{
    let mut temps = List::make(alloc);
    push_kinds(&mut temps, method.params.items())?;
    push_kinds(&mut temps, method.locals.items())?;
    Ok(MethodKinds {
        temps,
        result: method.result,
    })
}

/// The kinds of a class's variables, and of its methods.
fn class_kinds(alloc: Global, class: &ClassDecl) -> Result<ClassKinds, AllocError>
    ensures { IfOk result (λ k. k ≡ class_kinds (class_tree class.now)) }
{
    let mut vars = List::make(alloc);
    push_kinds(&mut vars, class.vars.items())?;
    let mut methods = List::make(alloc);
    for method in class.methods.items() {
        let kinds = method_kinds(alloc, method)?;
        if let Err(_) = methods.push(kinds) {
            return Err(AllocError);
        }
    }
    Ok(ClassKinds { vars, methods })
}

/// The kinds of each class.
fn kinds_of(alloc: Global, classes: &[ClassDecl]) -> Result<List<ClassKinds>, AllocError>
    ensures { IfOk result (λ list. list ≡ map class_kinds (map class_tree classes.now)) }
{
    let mut list = List::make(alloc);
    for class in classes {
        let kinds = class_kinds(alloc, class)?;
        if let Err(_) = list.push(kinds) {
            return Err(AllocError);
        }
    }
    Ok(list)
}

/// The object code file of a program: its code, a copy of its names, and the kinds that it declares.
/// Reports an error if out of memory, or if a body or a method has 2^32 instructions or more.
/// The verdict on the file is `Good`, so `verify` accepts it unless it is out of memory.
/// Time and memory are proportional to the program.
pub fn file_of(alloc: Global, program: &Checked<'_>) -> Result<UnitFile, AllocError>
    ensures file { IfOk result (λ f. f ≡ file_of program.now.names.now (program_of program.now.program.now)) }
    ensures shaped { IfOk result (λ f. IsShaped f) }
    // The file can be encoded if the table has fewer than 2^32 names, and each name has fewer than 2^32 bytes.
    ensures short { IsListOf IsShortList program.now.names.now → IfOk result (λ f. IsShort f) }
    ensures good { IfOk result (λ f. verdict f ≡ Good) }
{
    let Ok(unit) = compile(alloc, program) else {
        return Err(AllocError);
    };
    let classes = kinds_of(alloc, program.program.classes.items())?;
    Ok(UnitFile {
        unit,
        kinds: Kinds { classes },
    })
}
