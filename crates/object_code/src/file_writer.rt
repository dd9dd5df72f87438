//! Writes the bytes of an object code file.
ghost use Rattle.std.specs.Prelude.{◌≡◌, ◌≤◌, ◌<◌, ◌^◌, ℕ, [], ◌∷◌, ◌++◌, length, take, slice_get, Some, option_map, OnOk, OnErr};
ghost use Rattle.pool_outside.specs.Outside.{Rose, IsProperFront};
ghost use Rattle.text_scan.specs.Text.{Text};
ghost use Rattle.object_code.specs.FileBytes.{alternative_bytes, class_bytes, code_bytes, file_bytes, instr_bytes, integer_bytes, items_bytes, kind_bytes, list_bytes, method_bytes, name_bytes};
ghost use Rattle.object_code.specs.FileBytes.{number_bytes, operator_byte, option_bytes, text_bytes, truth_byte};
ghost use Rattle.code_semantics.specs.Shaped.{AlternativeIsShort, AreShapedClasses, AreShapedMethods, ClassIsShort, ClassKindsAreShort, InstrIsShort, IsListOf, IsNumber, IsOptionOf, IsShaped};
ghost use Rattle.code_semantics.specs.Pairs.{pairs};
ghost use Rattle.code_semantics.specs.Shaped.{IsShort, IsShortList, MethodIsShort, MethodKindsAreShort};
ghost use Rattle.object_code.specs.SinkState.{Writes, state};

use crate::listing::put;
use code_semantics::{AltCode, ClassCode, ClassKinds, Instr, MethodCode, MethodKinds, UnitFile};
use pool_outside::{Sink, WriteFault};
use run_types::{Kind, List, NameId, Names, Op};

fn put_byte<K: Sink>(sink: &mut K, failed: &mut bool, byte: u8)
    ensures { Writes (byte ∷ []) (state failed.old (K.written sink.old) (K.faults sink.old)) (state failed.new (K.written sink.new) (K.faults sink.new)) }
{
    put(sink, failed, &[byte]);
}

fn put_four<K: Sink>(sink: &mut K, failed: &mut bool, number: u32)
    ensures { Writes (number_bytes number) (state failed.old (K.written sink.old) (K.faults sink.old)) (state failed.new (K.written sink.new) (K.faults sink.new)) }
{
    put(sink, failed, &number.to_be_bytes());
}

/// Writes a byte and a number.
fn put_numbered<K: Sink>(sink: &mut K, failed: &mut bool, byte: u8, number: u32)
    ensures { Writes (byte ∷ number_bytes number) (state failed.old (K.written sink.old) (K.faults sink.old)) (state failed.new (K.written sink.new) (K.faults sink.new)) }
{
    put_byte(sink, failed, byte);
    put_four(sink, failed, number);
}

/// Writes a byte and two numbers.
fn put_sent<K: Sink>(sink: &mut K, failed: &mut bool, byte: u8, method: NameId, count: u32)
    ensures { Writes (byte ∷ (name_bytes method ++ number_bytes count)) (state failed.old (K.written sink.old) (K.faults sink.old)) (state failed.new (K.written sink.new) (K.faults sink.new)) }
{
    put_numbered(sink, failed, byte, method.0);
    put_four(sink, failed, count);
}

/// Writes a byte and an integer.
fn put_long<K: Sink>(sink: &mut K, failed: &mut bool, byte: u8, integer: i64)
    ensures { Writes (byte ∷ integer_bytes integer) (state failed.old (K.written sink.old) (K.faults sink.old)) (state failed.new (K.written sink.new) (K.faults sink.new)) }
{
    put_byte(sink, failed, byte);
    put(sink, failed, &integer.cast_unsigned().to_be_bytes());
}

/// An item of a list in a file.
trait Item {
    ghost bytes: { Self → Text };

    /// Whether its own lists have fewer than 2^32 items.
    ghost is_short: { Self → Type 0 };

    fn put_item<K: Sink>(&self, sink: &mut K, failed: &mut bool)
        requires { is_short self.now }
        ensures { Writes (bytes self.now) (state failed.old (K.written sink.old) (K.faults sink.old)) (state failed.new (K.written sink.new) (K.faults sink.new)) };
}

/// Writes the number of items, and the items.
fn put_list<T: Item, K: Sink>(sink: &mut K, failed: &mut bool, items: &[T])
    requires { IsListOf T.is_short items.now }
    ensures { Writes (list_bytes T.bytes items.now) (state failed.old (K.written sink.old) (K.faults sink.old)) (state failed.new (K.written sink.new) (K.faults sink.new)) }
{
    put_four(sink, failed, items.len() as u32);
    for item in items {
        item.put_item(sink, failed);
    }
}

impl Item for NameId {
    ghost bytes = { λ n. name_bytes n };

    ghost is_short = { λ _. Unit {0} };

    fn put_item<K: Sink>(&self, sink: &mut K, failed: &mut bool) {
        put_four(sink, failed, self.0);
    }
}

impl Item for Kind {
    ghost bytes = { λ k. kind_bytes k };

    ghost is_short = { λ _. Unit {0} };

    fn put_item<K: Sink>(&self, sink: &mut K, failed: &mut bool) {
        match self {
            Kind::Int => put_byte(sink, failed, 1),
            Kind::Bool => put_byte(sink, failed, 2),
            Kind::Class(class) => put_numbered(sink, failed, 3, class.0),
        }
    }
}

impl Item for AltCode {
    ghost bytes = { λ a. alternative_bytes a };

    ghost is_short = { λ a. AlternativeIsShort a };

    fn put_item<K: Sink>(&self, sink: &mut K, failed: &mut bool) {
        put_answered(sink, failed, &self.answer);
        put_four(sink, failed, self.at);
    }
}

fn put_answered<K: Sink>(sink: &mut K, failed: &mut bool, answer: &Option<List<NameId>>)
    requires { IsOptionOf IsShortList answer.now }
    ensures { Writes (option_bytes (list_bytes name_bytes) answer.now) (state failed.old (K.written sink.old) (K.faults sink.old)) (state failed.new (K.written sink.new) (K.faults sink.new)) }
{
    match answer {
        None => put_byte(sink, failed, 0),
        Some(names) => put_listed(sink, failed, 1, names.items()),
    }
}

/// Writes a byte and a list.
fn put_listed<T: Item, K: Sink>(sink: &mut K, failed: &mut bool, byte: u8, items: &[T])
    requires { IsListOf T.is_short items.now }
    ensures { Writes (byte ∷ list_bytes T.bytes items.now) (state failed.old (K.written sink.old) (K.faults sink.old)) (state failed.new (K.written sink.new) (K.faults sink.new)) }
{
    put_byte(sink, failed, byte);
    put_list(sink, failed, items);
}

/// The byte of an operator.
fn operator_number(op: Op) -> u8
    ensures { result ≡ operator_byte op }
{
    match op {
        Op::Add => 1,
        Op::Sub => 2,
        Op::Mul => 3,
        Op::Div => 4,
        Op::Rem => 5,
        Op::Neg => 6,
        Op::Less => 7,
        Op::LessEq => 8,
        Op::More => 9,
        Op::MoreEq => 10,
        Op::Same => 11,
        Op::Differs => 12,
        Op::And => 13,
        Op::Or => 14,
        Op::Not => 15,
    }
}

/// The first byte of an instruction.
fn instr_number(instr: &Instr) -> u8
    ensures { slice_get (instr_bytes instr.now) 0 ≡ Some result }
{
    match instr {
        Instr::PushInt(_) => 1,
        Instr::PushBool(_) => 2,
        Instr::PushNil => 3,
        Instr::Jump(_) => 4,
        Instr::LoadI(_) => 5,
        Instr::LoadT(_) => 6,
        Instr::SelfRef => 7,
        Instr::StoreI(_) => 8,
        Instr::StoreT(_) => 9,
        Instr::Oper(_) => 10,
        Instr::Pop => 11,
        Instr::Branch(_) => 12,
        Instr::Loop => 13,
        Instr::Call(_) => 14,
        Instr::Ret => 15,
        Instr::New(_) => 16,
        Instr::Send { .. } => 17,
        Instr::Async { .. } => 18,
        Instr::Write => 19,
        Instr::WriteText(_) => 20,
        Instr::Answer { .. } => 21,
        Instr::Select { .. } => 22,
        Instr::Halt => 23,
        Instr::Post => 24,
    }
}

impl Item for Instr {
    ghost bytes = { λ i. instr_bytes i };

    ghost is_short = { λ i. InstrIsShort i };

    fn put_item<K: Sink>(&self, sink: &mut K, failed: &mut bool) {
        match self {
            Instr::PushInt(value) => put_long(sink, failed, 1, *value),
            Instr::PushBool(value) => put(sink, failed, &[2, *value as u8]),
            Instr::Oper(op) => put(sink, failed, &[10, operator_number(*op)]),
            Instr::Jump(number)
            | Instr::LoadI(number)
            | Instr::LoadT(number)
            | Instr::StoreI(number)
            | Instr::StoreT(number)
            | Instr::Branch(number) => put_numbered(sink, failed, instr_number(self), *number),
            Instr::Call(name) | Instr::New(name) | Instr::WriteText(name) => {
                put_numbered(sink, failed, instr_number(self), name.0)
            }
            Instr::Send { method, count } | Instr::Async { method, count } => {
                put_sent(sink, failed, instr_number(self), *method, *count)
            }
            Instr::Answer { names } => put_listed(sink, failed, 21, names.items()),
            Instr::Select { alts } => put_listed(sink, failed, 22, alts.items()),
            Instr::PushNil
            | Instr::SelfRef
            | Instr::Pop
            | Instr::Loop
            | Instr::Ret
            | Instr::Write
            | Instr::Halt
            | Instr::Post => put_byte(sink, failed, instr_number(self)),
        }
    }
}

/// Writes the number of words of a frame, and the code.
fn put_code<K: Sink>(sink: &mut K, failed: &mut bool, frame_words: u32, code: &[Instr])
    requires { IsListOf InstrIsShort code.now }
    ensures { Writes (code_bytes frame_words code.now) (state failed.old (K.written sink.old) (K.faults sink.old)) (state failed.new (K.written sink.new) (K.faults sink.new)) }
{
    put_four(sink, failed, frame_words);
    put_list(sink, failed, code);
}

fn put_result<K: Sink>(sink: &mut K, failed: &mut bool, kind: &Option<Kind>)
    ensures { Writes (option_bytes kind_bytes kind.now) (state failed.old (K.written sink.old) (K.faults sink.old)) (state failed.new (K.written sink.new) (K.faults sink.new)) }
{
    match kind {
        None => put_byte(sink, failed, 0),
        Some(kind) => {
            put_byte(sink, failed, 1);
            kind.put_item(sink, failed);
        }
    }
}

fn put_method<K: Sink>(sink: &mut K, failed: &mut bool, method: &MethodCode, kinds: &MethodKinds)
    requires method { MethodIsShort method.now }
    requires kinds { MethodKindsAreShort kinds.now }
    ensures { Writes (method_bytes (method.now, kinds.now)) (state failed.old (K.written sink.old) (K.faults sink.old)) (state failed.new (K.written sink.new) (K.faults sink.new)) }
{
    put_four(sink, failed, method.name.0);
    put_four(sink, failed, method.params);
    put_list(sink, failed, kinds.temps.items());
    put_result(sink, failed, &kinds.result);
    put_code(sink, failed, method.frame_words, method.code.items());
}

fn put_methods<K: Sink>(
    sink: &mut K,
    failed: &mut bool,
    methods: &[MethodCode],
    kinds: &[MethodKinds],
)
    requires methods { IsListOf MethodIsShort methods.now }
    requires kinds { IsListOf MethodKindsAreShort kinds.now }
    requires many { length methods.now ≡ length kinds.now }
    ensures { Writes (list_bytes method_bytes (pairs methods.now kinds.now)) (state failed.old (K.written sink.old) (K.faults sink.old)) (state failed.new (K.written sink.new) (K.faults sink.new)) }
{
    put_four(sink, failed, methods.len() as u32);
    for place in 0..methods.len() {
        put_method(sink, failed, &methods[place], &kinds[place]);
    }
}

fn put_class<K: Sink>(sink: &mut K, failed: &mut bool, class: &ClassCode, kinds: &ClassKinds)
    requires class { ClassIsShort class.now }
    requires kinds { ClassKindsAreShort kinds.now }
    requires many { length class.now.methods ≡ length kinds.now.methods }
    ensures { Writes (class_bytes (class.now, kinds.now)) (state failed.old (K.written sink.old) (K.faults sink.old)) (state failed.new (K.written sink.new) (K.faults sink.new)) }
{
    put_four(sink, failed, class.name.0);
    put_list(sink, failed, kinds.vars.items());
    put_methods(sink, failed, class.methods.items(), kinds.methods.items());
    put_code(
        sink,
        failed,
        class.body.frame_words,
        class.body.code.items(),
    );
}

fn put_classes<K: Sink>(
    sink: &mut K,
    failed: &mut bool,
    classes: &[ClassCode],
    kinds: &[ClassKinds],
)
    requires classes { IsListOf ClassIsShort classes.now }
    requires kinds { IsListOf ClassKindsAreShort kinds.now }
    requires shaped { AreShapedClasses classes.now kinds.now }
    ensures { Writes (list_bytes class_bytes (pairs classes.now kinds.now)) (state failed.old (K.written sink.old) (K.faults sink.old)) (state failed.new (K.written sink.new) (K.faults sink.new)) }
{
    put_four(sink, failed, classes.len() as u32);
    for place in 0..classes.len() {
        put_class(sink, failed, &classes[place], &kinds[place]);
    }
}

/// Writes the number of bytes, and the bytes.
fn put_counted<K: Sink>(sink: &mut K, failed: &mut bool, text: &[u8])
    requires { IsShortList text.now }
    ensures { Writes (text_bytes text.now) (state failed.old (K.written sink.old) (K.faults sink.old)) (state failed.new (K.written sink.new) (K.faults sink.new)) }
{
    put_four(sink, failed, text.len() as u32);
    put(sink, failed, text);
}

fn put_names<K: Sink>(sink: &mut K, failed: &mut bool, names: &Names)
    requires { IsListOf IsShortList names.now }
    ensures { Writes (list_bytes text_bytes names.now) (state failed.old (K.written sink.old) (K.faults sink.old)) (state failed.new (K.written sink.new) (K.faults sink.new)) }
{
    let count = names.count() as u32;
    put_four(sink, failed, count);
    for number in 0..count {
        put_counted(sink, failed, names.text(NameId(number)));
    }
}

fn put_file<K: Sink>(sink: &mut K, failed: &mut bool, file: &UnitFile)
    requires shaped { IsShaped file.now }
    requires short { IsShort file.now }
    ensures { Writes (file_bytes file.now) (state failed.old (K.written sink.old) (K.faults sink.old)) (state failed.new (K.written sink.new) (K.faults sink.new)) }
{
    put(sink, failed, b"POOLU\x01");
    put_names(sink, failed, &file.unit.names);
    put_classes(
        sink,
        failed,
        file.unit.classes.items(),
        file.kinds.classes.items(),
    );
}

/// Writes the bytes of an object code file into the sink.
/// After a failed write it writes nothing more, and reports the error. Allocates no memory.
pub fn encode<K: Sink>(file: &UnitFile, sink: &mut K) -> Result<(), WriteFault>
    requires shaped { IsShaped file.now }
    requires short { IsShort file.now }
    ensures whole { OnOk result (K.written sink.new ≡ option_map (λ w. w ++ file_bytes file.now) (K.written sink.old)) }
    ensures front { OnErr result (IsProperFront (K.written sink.old) (file_bytes file.now) (K.written sink.new)) }
    ensures failed { OnErr result (Rose (K.faults sink.old) (K.faults sink.new)) }
    ensures no_fault { OnOk result (K.faults sink.new ≡ K.faults sink.old) }
    ensures faults_stay_or_rise { K.faults sink.old ≤ K.faults sink.new }
{
    let mut failed = false;
    put_file(sink, &mut failed, file);
    if failed { Err(WriteFault) } else { Ok(()) }
}
