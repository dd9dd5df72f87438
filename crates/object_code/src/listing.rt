//! Writes the listing of a unit.
ghost use Rattle.std.specs.Prelude.{◌≡◌, ◌≤◌, ◌++◌, ℕ, length, take, option_map, OnOk, OnErr, codes, decimal};
ghost use Rattle.std.specs.Fmt.{signed_decimal};
ghost use Rattle.std.specs.List.{All};
ghost use Rattle.pool_outside.specs.Outside.{Rose, IsProperFront};
ghost use Rattle.object_code.specs.Known.{AlternativeIsKnown, AnswerIsKnown, ClassIsKnown, InstrIsKnown, IsKnown, IsKnownUnit, MethodIsKnown};
ghost use Rattle.object_code.specs.Listing.{alternative_text, alternatives_text, answer_text, body_text, class_text, classes_text, joined_text, led_by_commas, line_text, lines_text, listing};
ghost use Rattle.object_code.specs.Listing.{method_text, methods_text, mnemonic_text, name_text, number_text, operands_text, operator_text, quoted_text, spaced_text, word_text};
ghost use Rattle.text_scan.specs.Text.{truth_text};
ghost use Rattle.run_types.specs.Table.{text_at};
ghost use Rattle.object_code.specs.SinkState.{Writes, state};

use code_semantics::{AltCode, BodyCode, ClassCode, Instr, MethodCode, Unit};
use itoa::Buffer;
use pool_outside::{Sink, WriteFault, write_all_of};
use run_types::{List, NameId, Names, Op};

/// Writes the piece, unless a write has failed before.
pub(crate) fn put<K: Sink>(sink: &mut K, failed: &mut bool, piece: &[u8])
    ensures { Writes piece.now (state failed.old (K.written sink.old) (K.faults sink.old)) (state failed.new (K.written sink.new) (K.faults sink.new)) }
{
    if !*failed {
        match write_all_of(sink, piece) {
            Ok(()) => {}
            Err(WriteFault) => *failed = true,
        }
    }
}

fn put_word<K: Sink>(sink: &mut K, failed: &mut bool, piece: &[u8])
    ensures { Writes (word_text piece.now) (state failed.old (K.written sink.old) (K.faults sink.old)) (state failed.new (K.written sink.new) (K.faults sink.new)) }
{
    put(sink, failed, b" ");
    put(sink, failed, piece);
}

fn put_decimal<K: Sink>(sink: &mut K, failed: &mut bool, value: usize)
    ensures { Writes (decimal value) (state failed.old (K.written sink.old) (K.faults sink.old)) (state failed.new (K.written sink.new) (K.faults sink.new)) }
{
    let mut buffer = Buffer::new();
    put(sink, failed, buffer.format(value).as_bytes());
}

fn put_number<K: Sink>(sink: &mut K, failed: &mut bool, value: u32)
    ensures { Writes (number_text value) (state failed.old (K.written sink.old) (K.faults sink.old)) (state failed.new (K.written sink.new) (K.faults sink.new)) }
{
    put(sink, failed, b" ");
    put_decimal(sink, failed, value as usize);
}

fn put_integer<K: Sink>(sink: &mut K, failed: &mut bool, value: i64)
    ensures { Writes (word_text (signed_decimal value)) (state failed.old (K.written sink.old) (K.faults sink.old)) (state failed.new (K.written sink.new) (K.faults sink.new)) }
{
    let mut buffer = Buffer::new();
    put_word(sink, failed, buffer.format(value).as_bytes());
}

/// Writes the text of a name or string.
fn put_text<K: Sink>(names: &Names, sink: &mut K, failed: &mut bool, id: NameId)
    requires { IsKnown names.now id }
    ensures { Writes (text_at names.now id.0) (state failed.old (K.written sink.old) (K.faults sink.old)) (state failed.new (K.written sink.new) (K.faults sink.new)) }
{
    put(sink, failed, names.text(id));
}

fn put_name<K: Sink>(names: &Names, sink: &mut K, failed: &mut bool, id: NameId)
    requires { IsKnown names.now id }
    ensures { Writes (name_text names.now id) (state failed.old (K.written sink.old) (K.faults sink.old)) (state failed.new (K.written sink.new) (K.faults sink.new)) }
{
    put(sink, failed, b" ");
    put_text(names, sink, failed, id);
}

fn put_quoted<K: Sink>(names: &Names, sink: &mut K, failed: &mut bool, id: NameId)
    requires { IsKnown names.now id }
    ensures { Writes (quoted_text names.now id) (state failed.old (K.written sink.old) (K.faults sink.old)) (state failed.new (K.written sink.new) (K.faults sink.new)) }
{
    put_word(sink, failed, b"\"");
    put_text(names, sink, failed, id);
    put(sink, failed, b"\"");
}

/// Writes each name after a space.
fn put_spaced<K: Sink>(names: &Names, sink: &mut K, failed: &mut bool, ids: &[NameId])
    requires { All (IsKnown names.now) ids.now }
    ensures { Writes (spaced_text names.now ids.now) (state failed.old (K.written sink.old) (K.faults sink.old)) (state failed.new (K.written sink.new) (K.faults sink.new)) }
{
    for id in ids {
        put_name(names, sink, failed, *id);
    }
}

/// Writes each name after a comma.
fn put_led_by_commas<K: Sink>(names: &Names, sink: &mut K, failed: &mut bool, ids: &[NameId])
    requires { All (IsKnown names.now) ids.now }
    ensures { Writes (led_by_commas names.now ids.now) (state failed.old (K.written sink.old) (K.faults sink.old)) (state failed.new (K.written sink.new) (K.faults sink.new)) }
{
    for id in ids {
        put(sink, failed, b",");
        put_text(names, sink, failed, *id);
    }
}

/// Writes names, separated by commas.
fn put_joined<K: Sink>(names: &Names, sink: &mut K, failed: &mut bool, ids: &[NameId])
    requires { All (IsKnown names.now) ids.now }
    ensures { Writes (joined_text names.now ids.now) (state failed.old (K.written sink.old) (K.faults sink.old)) (state failed.new (K.written sink.new) (K.faults sink.new)) }
{
    if let Some((first, rest)) = ids.split_first() {
        put_text(names, sink, failed, *first);
        put_led_by_commas(names, sink, failed, rest);
    }
}

fn put_answer<K: Sink>(
    names: &Names,
    sink: &mut K,
    failed: &mut bool,
    listed: &Option<List<NameId>>,
)
    requires { AnswerIsKnown names.now listed.now }
    ensures { Writes (answer_text names.now listed.now) (state failed.old (K.written sink.old) (K.faults sink.old)) (state failed.new (K.written sink.new) (K.faults sink.new)) }
{
    if let Some(ids) = listed {
        put_joined(names, sink, failed, ids.items());
    }
}

fn put_alternative<K: Sink>(names: &Names, sink: &mut K, failed: &mut bool, alt: &AltCode)
    requires { AlternativeIsKnown names.now alt.now }
    ensures { Writes (alternative_text names.now alt.now) (state failed.old (K.written sink.old) (K.faults sink.old)) (state failed.new (K.written sink.new) (K.faults sink.new)) }
{
    put(sink, failed, b" ");
    put_answer(names, sink, failed, &alt.answer);
    put(sink, failed, b"@");
    put_decimal(sink, failed, alt.at as usize);
}

fn put_alternatives<K: Sink>(names: &Names, sink: &mut K, failed: &mut bool, alts: &[AltCode])
    requires { All (AlternativeIsKnown names.now) alts.now }
    ensures { Writes (alternatives_text names.now alts.now) (state failed.old (K.written sink.old) (K.faults sink.old)) (state failed.new (K.written sink.new) (K.faults sink.new)) }
{
    for alt in alts {
        put_alternative(names, sink, failed, alt);
    }
}

fn truth(value: bool) -> &'static [u8]
    ensures { result.now ≡ truth_text value }
{
    if value { b"true" } else { b"false" }
}

fn operator(op: Op) -> &'static [u8]
    ensures { result.now ≡ operator_text op }
{
    match op {
        Op::Add => b"+",
        Op::Sub => b"-",
        Op::Mul => b"*",
        Op::Div => b"/",
        Op::Rem => b"%",
        Op::Neg => b"neg",
        Op::Less => b"<",
        Op::LessEq => b"<=",
        Op::More => b">",
        Op::MoreEq => b">=",
        Op::Same => b"==",
        Op::Differs => b"!=",
        Op::And => b"and",
        Op::Or => b"or",
        Op::Not => b"not",
    }
}

/// The name of an instruction.
fn mnemonic(instr: &Instr) -> &'static [u8]
    ensures { result.now ≡ mnemonic_text instr.now }
{
    match instr {
        Instr::PushInt(_) => b"PushInt",
        Instr::PushBool(_) => b"PushBool",
        Instr::PushNil => b"PushNil",
        Instr::Jump(_) => b"Jump",
        Instr::LoadI(_) => b"LoadI",
        Instr::LoadT(_) => b"LoadT",
        Instr::SelfRef => b"SelfRef",
        Instr::StoreI(_) => b"StoreI",
        Instr::StoreT(_) => b"StoreT",
        Instr::Oper(_) => b"Oper",
        Instr::Pop => b"Pop",
        Instr::Branch(_) => b"Branch",
        Instr::Loop => b"Loop",
        Instr::Call(_) => b"Call",
        Instr::Ret => b"Ret",
        Instr::New(_) => b"New",
        Instr::Send { .. } => b"Send",
        Instr::Async { .. } => b"Async",
        Instr::Write => b"Write",
        Instr::WriteText(_) => b"WriteText",
        Instr::Answer { .. } => b"Answer",
        Instr::Select { .. } => b"Select",
        Instr::Halt => b"Halt",
        Instr::Post => b"Post",
    }
}

/// Writes a method's name and its number of arguments.
fn put_message<K: Sink>(names: &Names, sink: &mut K, failed: &mut bool, id: NameId, count: u32)
    requires { IsKnown names.now id }
    ensures { Writes (name_text names.now id ++ number_text count) (state failed.old (K.written sink.old) (K.faults sink.old)) (state failed.new (K.written sink.new) (K.faults sink.new)) }
{
    put_name(names, sink, failed, id);
    put_number(sink, failed, count);
}

/// Writes the operands of an instruction.
fn put_operands<K: Sink>(names: &Names, sink: &mut K, failed: &mut bool, instr: &Instr)
    requires { InstrIsKnown names.now instr.now }
    ensures { Writes (operands_text names.now instr.now) (state failed.old (K.written sink.old) (K.faults sink.old)) (state failed.new (K.written sink.new) (K.faults sink.new)) }
{
    match instr {
        Instr::PushInt(value) => put_integer(sink, failed, *value),
        Instr::PushBool(value) => put_word(sink, failed, truth(*value)),
        Instr::Jump(number)
        | Instr::LoadI(number)
        | Instr::LoadT(number)
        | Instr::StoreI(number)
        | Instr::StoreT(number)
        | Instr::Branch(number) => put_number(sink, failed, *number),
        Instr::Oper(op) => put_word(sink, failed, operator(*op)),
        Instr::Call(name) | Instr::New(name) => put_name(names, sink, failed, *name),
        Instr::Send { method, count } | Instr::Async { method, count } => {
            put_message(names, sink, failed, *method, *count)
        }
        Instr::WriteText(text) => put_quoted(names, sink, failed, *text),
        Instr::Answer { names: ids } => put_spaced(names, sink, failed, ids.items()),
        Instr::Select { alts } => put_alternatives(names, sink, failed, alts.items()),
        Instr::PushNil
        | Instr::SelfRef
        | Instr::Pop
        | Instr::Loop
        | Instr::Ret
        | Instr::Write
        | Instr::Halt
        | Instr::Post => {}
    }
}

/// Writes the line of an instruction.
fn put_line<K: Sink>(names: &Names, sink: &mut K, failed: &mut bool, at: usize, instr: &Instr)
    requires { InstrIsKnown names.now instr.now }
    ensures { Writes (line_text names.now at instr.now) (state failed.old (K.written sink.old) (K.faults sink.old)) (state failed.new (K.written sink.new) (K.faults sink.new)) }
{
    put_decimal(sink, failed, at);
    put_word(sink, failed, mnemonic(instr));
    put_operands(names, sink, failed, instr);
    put(sink, failed, b"\n");
}

/// Writes the lines of instructions.
fn put_lines<K: Sink>(names: &Names, sink: &mut K, failed: &mut bool, code: &[Instr])
    requires { All (InstrIsKnown names.now) code.now }
    ensures { Writes (lines_text names.now 0 code.now) (state failed.old (K.written sink.old) (K.faults sink.old)) (state failed.new (K.written sink.new) (K.faults sink.new)) }
{
    for (at, instr) in code.iter().enumerate() {
        put_line(names, sink, failed, at, instr);
    }
}

fn put_method<K: Sink>(names: &Names, sink: &mut K, failed: &mut bool, method: &MethodCode)
    requires { MethodIsKnown names.now method.now }
    ensures { Writes (method_text names.now method.now) (state failed.old (K.written sink.old) (K.faults sink.old)) (state failed.new (K.written sink.new) (K.faults sink.new)) }
{
    put(sink, failed, b"method");
    put_name(names, sink, failed, method.name);
    put_number(sink, failed, method.temps);
    put_number(sink, failed, method.frame_words);
    put(sink, failed, b"\n");
    put_lines(names, sink, failed, method.code.items());
}

fn put_methods<K: Sink>(names: &Names, sink: &mut K, failed: &mut bool, methods: &[MethodCode])
    requires { All (MethodIsKnown names.now) methods.now }
    ensures { Writes (methods_text names.now methods.now) (state failed.old (K.written sink.old) (K.faults sink.old)) (state failed.new (K.written sink.new) (K.faults sink.new)) }
{
    for method in methods {
        put_method(names, sink, failed, method);
    }
}

fn put_body<K: Sink>(names: &Names, sink: &mut K, failed: &mut bool, body: &BodyCode)
    requires { All (InstrIsKnown names.now) body.now.code }
    ensures { Writes (body_text names.now body.now) (state failed.old (K.written sink.old) (K.faults sink.old)) (state failed.new (K.written sink.new) (K.faults sink.new)) }
{
    put(sink, failed, b"body");
    put_number(sink, failed, body.frame_words);
    put(sink, failed, b"\n");
    put_lines(names, sink, failed, body.code.items());
}

fn put_class<K: Sink>(names: &Names, sink: &mut K, failed: &mut bool, class: &ClassCode)
    requires { ClassIsKnown names.now class.now }
    ensures { Writes (class_text names.now class.now) (state failed.old (K.written sink.old) (K.faults sink.old)) (state failed.new (K.written sink.new) (K.faults sink.new)) }
{
    put(sink, failed, b"class");
    put_name(names, sink, failed, class.name);
    put_number(sink, failed, class.vars);
    put(sink, failed, b"\n");
    put_methods(names, sink, failed, class.methods.items());
    put_body(names, sink, failed, &class.body);
}

fn put_classes<K: Sink>(names: &Names, sink: &mut K, failed: &mut bool, classes: &[ClassCode])
    requires { All (ClassIsKnown names.now) classes.now }
    ensures { Writes (classes_text names.now classes.now) (state failed.old (K.written sink.old) (K.faults sink.old)) (state failed.new (K.written sink.new) (K.faults sink.new)) }
{
    for class in classes {
        put_class(names, sink, failed, class);
    }
}

/// Writes the listing of the unit into the sink. After a failed write it writes nothing more, and reports the error.
/// Allocates no memory.
pub fn list_code<K: Sink>(unit: &Unit, sink: &mut K) -> Result<(), WriteFault>
    requires known { IsKnownUnit unit.now }
    ensures whole { OnOk result (K.written sink.new ≡ option_map (λ w. w ++ listing unit.now) (K.written sink.old)) }
    ensures front { OnErr result (IsProperFront (K.written sink.old) (listing unit.now) (K.written sink.new)) }
    ensures failed { OnErr result (Rose (K.faults sink.old) (K.faults sink.new)) }
    ensures no_fault { OnOk result (K.faults sink.new ≡ K.faults sink.old) }
    ensures faults_stay_or_rise { K.faults sink.old ≤ K.faults sink.new }
{
    let mut failed = false;
    put_classes(&unit.names, sink, &mut failed, unit.classes.items());
    if failed { Err(WriteFault) } else { Ok(()) }
}
