//! The faults of inputs, and the lines that report them.
ghost use Rattle.std.specs.Prelude.{◌≡◌, ◌++◌, OnOk, IfOk, decimal};
ghost use Rattle.command_inputs.specs.FaultText.{class_fault_text, fault_text, input_text, lex_fault_text, placement_fault_text, record_fault_text, refusal_line, schedule_fault_text, syntax_fault_text};
ghost use Rattle.command_inputs.specs.FaultText.{unit_fault_text, unread_line};

use class_check::ClassFault;
use itoa::Buffer;
use placement_reader::PlacementFault;
use pool_parser::SyntaxFault;
use pool_syntax::LexFault;
use run_record::RecordFault;
use schedule_reader::ScheduleFault;
use std::alloc::{AllocError, Global};

/// The inputs of commands.
#[derive(Clone, Copy)]
pub enum Input {
    Program,
    Placement,
    Schedule,
    Record,
    /// An object code file.
    Unit,
}

/// The fault of an object code file.
#[derive(Clone, Copy)]
pub enum UnitFault {
    /// Its bytes do not have the form. `at` is the offset of the first byte that is not allowed, or the length of a
    /// file that ends too early.
    BadBytes { at: u32 },
    /// The index, from 0, of the first name that equals an earlier one.
    NameTwice { place: u32 },
    /// The index, from 0, of the first class whose heading breaks a rule, or 0 if there is no class.
    Header { class: u32 },
    /// The first code that the verifier rejects: the index of its class, and of its method in the class. A body has the
    /// number of methods as its index.
    Code { class: u32, method: u32 },
    /// Out of memory.
    Memory,
}

/// The fault of an input that was refused.
#[derive(Clone, Copy)]
pub enum Fault {
    /// It has more bytes than its limit: 67,108,864 for a record, 16,777,216 for an object code file, and 1,048,576 for
    /// any other input. A stream that `explore follow` reads is too long from 2^64 - 1 bytes on.
    TooLong,
    /// The first fault of a program's tokens.
    Lex(LexFault),
    /// The first fault of a program's grammar.
    Syntax(SyntaxFault),
    /// The least class fault of a program.
    Class(ClassFault),
    /// The first fault of a placement.
    Placement(PlacementFault),
    /// The first fault of a schedule.
    Schedule(ScheduleFault),
    /// The first fault of a record.
    Record(RecordFault),
    /// The first fault of an object code file.
    Unit(UnitFault),
}

/// The reason that a command does nothing with its inputs.
#[derive(Clone, Copy)]
pub enum InputError {
    /// The input was refused.
    Refused { input: Input, fault: Fault },
    /// The open or a read of the input failed.
    Unread { input: Input },
    /// Out of memory.
    Memory,
}

/// Appends `words` and the decimal number `place`. Returns `Err` if memory runs out.
pub fn push_place(text: &mut Vec<u8>, words: &[u8], place: u32) -> Result<(), AllocError>
    ensures { OnOk result (text.new.items ≡ text.old.items ++ (words.now ++ decimal place)) }
{
    let mut buffer = Buffer::new();
    text.extend_from_slice(words)?;
    text.extend_from_slice(buffer.format(place).as_bytes())?;
    Ok(())
}

/// Appends `words` and the decimal number `count`. Returns `Err` if memory runs out.
pub fn push_count(text: &mut Vec<u8>, words: &[u8], count: u64) -> Result<(), AllocError>
    ensures { OnOk result (text.new.items ≡ text.old.items ++ (words.now ++ decimal count)) }
{
    let mut buffer = Buffer::new();
    text.extend_from_slice(words)?;
    text.extend_from_slice(buffer.format(count).as_bytes())?;
    Ok(())
}

fn push_lex_fault(text: &mut Vec<u8>, fault: LexFault) -> Result<(), AllocError>
    ensures { OnOk result (text.new.items ≡ text.old.items ++ lex_fault_text fault) }
{
    match fault {
        LexFault::BadByte { at } => push_place(text, b"BadByte at byte ", at),
        LexFault::IntegerTooLarge { at } => push_place(text, b"IntegerTooLarge at byte ", at),
        LexFault::OpenString { at } => push_place(text, b"OpenString at byte ", at),
        LexFault::TooLong { at } => push_place(text, b"TooLong at byte ", at),
        LexFault::Memory => Ok(()),
    }
}

fn push_syntax_fault(text: &mut Vec<u8>, fault: SyntaxFault) -> Result<(), AllocError>
    ensures { OnOk result (text.new.items ≡ text.old.items ++ syntax_fault_text fault) }
{
    match fault {
        SyntaxFault::Unexpected { token } => push_place(text, b"Unexpected at token ", token),
        SyntaxFault::TooDeep { token } => push_place(text, b"TooDeep at token ", token),
        SyntaxFault::Memory => Ok(()),
    }
}

fn push_class_fault(text: &mut Vec<u8>, fault: ClassFault) -> Result<(), AllocError>
    ensures { OnOk result (text.new.items ≡ text.old.items ++ class_fault_text fault) }
{
    match fault {
        ClassFault::ClassTwice { token } => push_place(text, b"ClassTwice at token ", token),
        ClassFault::UnknownClass { token } => push_place(text, b"UnknownClass at token ", token),
        ClassFault::VariableTwice { token } => push_place(text, b"VariableTwice at token ", token),
        ClassFault::MethodTwice { token } => push_place(text, b"MethodTwice at token ", token),
        ClassFault::LocalTwice { token } => push_place(text, b"LocalTwice at token ", token),
        ClassFault::UnknownVariable { token } => push_place(
            text,
            b"UnknownVariable at token ",
            token,
        ),
        ClassFault::UnknownMethod { token } => push_place(text, b"UnknownMethod at token ", token),
        ClassFault::ArgumentCount { token } => push_place(text, b"ArgumentCount at token ", token),
        ClassFault::TypeDiffers { token } => push_place(text, b"TypeDiffers at token ", token),
        ClassFault::NoResult { token } => push_place(text, b"NoResult at token ", token),
        ClassFault::AnswerName { token } => push_place(text, b"AnswerName at token ", token),
        ClassFault::Limit { token } => push_place(text, b"Limit at token ", token),
        ClassFault::Memory => Ok(()),
    }
}

fn push_placement_fault(text: &mut Vec<u8>, fault: PlacementFault) -> Result<(), AllocError>
    ensures { OnOk result (text.new.items ≡ text.old.items ++ placement_fault_text fault) }
{
    match fault {
        PlacementFault::BadLine { line } => push_place(text, b"BadLine at line ", line),
        PlacementFault::UnknownClass { line } => push_place(text, b"UnknownClass at line ", line),
        PlacementFault::Repeated { line } => push_place(text, b"Repeated at line ", line),
        PlacementFault::NoSuchNode { line } => push_place(text, b"NoSuchNode at line ", line),
        PlacementFault::OutOfRange { line } => push_place(text, b"OutOfRange at line ", line),
        PlacementFault::TooLarge { words } => push_count(text, b"TooLarge ", words),
        PlacementFault::Memory => Ok(()),
        PlacementFault::NoSuchLink { line } => push_place(text, b"NoSuchLink at line ", line),
        PlacementFault::NoRoute { from, to } => {
            push_place(text, b"NoRoute ", from)?;
            push_place(text, b" ", to)
        }
    }
}

fn push_schedule_fault(text: &mut Vec<u8>, fault: ScheduleFault) -> Result<(), AllocError>
    ensures { OnOk result (text.new.items ≡ text.old.items ++ schedule_fault_text fault) }
{
    match fault {
        ScheduleFault::BadLine { line } => push_place(text, b"BadLine at line ", line),
        ScheduleFault::NoSuchNode { line } => push_place(text, b"NoSuchNode at line ", line),
        ScheduleFault::NoSuchLink { line } => push_place(text, b"NoSuchLink at line ", line),
        ScheduleFault::OutOfRange { line } => push_place(text, b"OutOfRange at line ", line),
        ScheduleFault::TooManyEvents { count } => push_count(text, b"TooManyEvents ", count),
        ScheduleFault::Memory => Ok(()),
    }
}

fn push_record_fault(text: &mut Vec<u8>, fault: RecordFault) -> Result<(), AllocError>
    ensures { OnOk result (text.new.items ≡ text.old.items ++ record_fault_text fault) }
{
    match fault {
        RecordFault::BadLine { line } => push_place(text, b"BadLine at line ", line),
        RecordFault::OutOfOrder { line } => push_place(text, b"OutOfOrder at line ", line),
        RecordFault::WrongAsk { line } => push_place(text, b"WrongAsk at line ", line),
        RecordFault::Memory => Ok(()),
    }
}

fn push_unit_fault(text: &mut Vec<u8>, fault: UnitFault) -> Result<(), AllocError>
    ensures { OnOk result (text.new.items ≡ text.old.items ++ unit_fault_text fault) }
{
    match fault {
        UnitFault::BadBytes { at } => push_place(text, b"BadBytes at byte ", at),
        UnitFault::NameTwice { place } => push_place(text, b"NameTwice ", place),
        UnitFault::Header { class } => push_place(text, b"Header ", class),
        UnitFault::Code { class, method } => {
            push_place(text, b"Code ", class)?;
            push_place(text, b" ", method)
        }
        UnitFault::Memory => Ok(()),
    }
}

fn push_fault(text: &mut Vec<u8>, fault: Fault) -> Result<(), AllocError>
    ensures { OnOk result (text.new.items ≡ text.old.items ++ fault_text fault) }
{
    match fault {
        Fault::TooLong => text.extend_from_slice(b"TooLong"),
        Fault::Lex(fault) => push_lex_fault(text, fault),
        Fault::Syntax(fault) => push_syntax_fault(text, fault),
        Fault::Class(fault) => push_class_fault(text, fault),
        Fault::Placement(fault) => push_placement_fault(text, fault),
        Fault::Schedule(fault) => push_schedule_fault(text, fault),
        Fault::Record(fault) => push_record_fault(text, fault),
        Fault::Unit(fault) => push_unit_fault(text, fault),
    }
}

/// The start of a line about an input: `pool: `, the input's name, and `: `.
fn line_about(alloc: Global, input: Input) -> Result<Vec<u8>, AllocError>
    ensures { IfOk result (λ line. line.items ≡ input_text input) }
{
    match input {
        Input::Program => b"pool: program: ".to_vec(alloc),
        Input::Placement => b"pool: placement: ".to_vec(alloc),
        Input::Schedule => b"pool: schedule: ".to_vec(alloc),
        Input::Record => b"pool: record: ".to_vec(alloc),
        Input::Unit => b"pool: unit: ".to_vec(alloc),
    }
}

/// The line that reports the fault of an input. Returns `Err` if memory runs out.
pub fn line_of_refusal(alloc: Global, input: Input, fault: Fault) -> Result<Vec<u8>, AllocError>
    ensures { IfOk result (λ line. line.items ≡ refusal_line input fault) }
{
    let mut line = line_about(alloc, input)?;
    push_fault(&mut line, fault)?;
    line.extend_from_slice(b"\n")?;
    Ok(line)
}

/// The line that reports that the open or a read of an input failed. Returns `Err` if memory runs out.
pub fn line_of_unread(alloc: Global, input: Input) -> Result<Vec<u8>, AllocError>
    ensures { IfOk result (λ line. line.items ≡ unread_line input) }
{
    let mut line = line_about(alloc, input)?;
    line.extend_from_slice(b"read fault\n")?;
    Ok(line)
}
