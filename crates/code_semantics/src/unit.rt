//! The code of a program: a unit, its classes, and their methods and instructions.

use run_types::{List, NameId, Names, Op};

/// The code of a program: the table of its names and strings, and its classes in the order of the text.
/// The last class is the root class.
#[derive(Drop)]
pub struct Unit {
    pub names: Names,
    pub classes: List<ClassCode>,
}

/// A class: its name, the number of variables of its objects, its methods in the order of the text, and its body.
#[derive(Drop)]
pub struct ClassCode {
    pub name: NameId,
    pub vars: u32,
    pub methods: List<MethodCode>,
    pub body: BodyCode,
}

/// A method. `params` is the number of its parameters, and `temps` is the number of its parameters and locals.
/// `frame_words` is `temps` plus the greatest depth of its operand stack.
#[derive(Drop)]
pub struct MethodCode {
    pub name: NameId,
    pub params: u32,
    pub temps: u32,
    pub frame_words: u32,
    pub code: List<Instr>,
}

/// A body. `frame_words` is the greatest depth of its operand stack.
#[derive(Drop)]
pub struct BodyCode {
    pub frame_words: u32,
    pub code: List<Instr>,
}

/// An instruction. The `u32` of a jump or a branch is a place in the same code, from 0.
/// The `u32` of a load or a store is the number of a variable (`I`) or of a parameter or local (`T`), from 0.
#[derive(Drop)]
pub enum Instr {
    /// Pushes the literal.
    PushInt(i64),
    /// Pushes the literal.
    PushBool(bool),
    /// Pushes nil.
    PushNil,
    /// Continues at the place.
    Jump(u32),
    /// Pushes a variable.
    LoadI(u32),
    /// Pushes a parameter or local.
    LoadT(u32),
    /// Pushes the object's own name.
    SelfRef,
    /// Pops a value into a variable.
    StoreI(u32),
    /// Pops a value into a parameter or local.
    StoreT(u32),
    /// Pops the operator's operands, and pushes its value.
    Oper(Op),
    /// Pops a value.
    Pop,
    /// Pops a condition. Continues at the next instruction if it is true, and at the place if it is false.
    Branch(u32),
    /// The start of a loop: one step, which only moves to the next instruction.
    Loop,
    /// Calls the own method: pops one argument for each of its parameters. Its value is pushed.
    Call(NameId),
    /// Ends a method. Its value is the last operand.
    Ret,
    /// Makes an object of the class, and pushes its name.
    New(NameId),
    /// Pops `count` arguments and a destination, and calls the destination's method. The value is pushed.
    Send { method: NameId, count: u32 },
    /// Pops `count` arguments and a destination, and sends the message to the destination.
    Async { method: NameId, count: u32 },
    /// Pops a value, and writes it.
    Write,
    /// Writes a string.
    WriteText(NameId),
    /// Waits for a message with one of these methods, and serves it.
    Answer { names: List<NameId> },
    /// Pops a guard for each alternative, and continues at the list of an open one.
    Select { alts: List<AltCode> },
    /// Ends a body.
    Halt,
    /// Returns the last operand to the caller, if the frame serves one.
    /// The operand stays, and the frame then serves no one.
    Post,
}

/// An alternative of a select: the methods that it answers (`None` if it is plain), and the place of its list.
#[derive(Drop)]
pub struct AltCode {
    pub answer: Option<List<NameId>>,
    pub at: u32,
}
