//! Reads the bytes of an object code file.
ghost use Rattle.std.specs.Prelude.{◌≡◌, ◌+◌, ◌-◌, ◌<◌, ◌≤◌, ◌^◌, ℕ, List as texts_list, [], ◌∷◌, ◌++◌, length, IfOk, IfErr, OnOk};
ghost use Rattle.text_scan.specs.Text.{Text};
ghost use Rattle.run_types.specs.declared.types.NameId.{NameId as Name};
ghost use Rattle.object_code.specs.declared.code_fault.CodeFault.TheVariants.{BadBytes};
ghost use Rattle.object_code.specs.declared.code_fault.Unread.TheVariants.{BadByte, Memory};
ghost use Rattle.code_semantics.specs.declared.unit.Instr.{Instr as Instruction};
ghost use Rattle.object_code.specs.Decode.{Says, decode as decoded_bytes, read_alternative, read_class, read_code, read_exactly, read_file, read_instr, read_integer, read_kind, read_method};
ghost use Rattle.object_code.specs.Decode.{read_name, read_operator, read_option, read_sent, read_text, read_truth};
ghost use Rattle.code_semantics.specs.declared.file.UnitFile.{UnitFile as AFile};
ghost use Rattle.code_semantics.specs.Shaped.{IsShaped, IsShort};
ghost use Rattle.code_semantics.specs.Pairs.{pairs};
ghost use Rattle.object_code.specs.ReadResults.{Gives, IsFront, IsTable, Stops, ReportsDecodeFault};
ghost use Rattle.object_code.specs.Read.{Got, Reader, read_list, read_number};

use crate::code_fault::{CodeFault, Unread};
use code_semantics::{
    AltCode, BodyCode, ClassCode, ClassKinds, Instr, Kinds, MethodCode, MethodKinds, Unit, UnitFile,
};
use run_types::{Kind, List, NameId, Names, Op};
use std::alloc::{AllocError, Global};

/// Maps a part that was taken off the front, and keeps the bytes that are left.
macro_rules! made {
    ($part:pat = $taken:expr => $made:expr) => {
        match $taken {
            Ok(($part, rest)) => Ok(($made, rest)),
            Err(fault) => Err(fault),
        }
    };
}

/// The part that was taken off the front. If none was taken, the fault is returned.
macro_rules! taken {
    ($taken:expr) => {
        match $taken {
            Ok(taken) => taken,
            Err(fault) => return Err(fault),
        }
    };
}

/// Takes a byte off the front.
fn take_byte(bytes: &[u8]) -> Result<(u8, &[u8]), Unread>
    ensures first { IfOk result (λ r. bytes.now ≡ r.0 ∷ r.1.now) }
    ensures none { IfErr result (λ e. (e ≡ BadByte 0) × (bytes.now ≡ [])) }
{
    match bytes {
        [first, rest @ ..] => Ok((*first, rest)),
        [] => Err(Unread::BadByte { left: 0 }),
    }
}

fn take_number(bytes: &[u8]) -> Result<(u32, &[u8]), Unread>
    ensures { Gives (λ r. Got r.0 r.1.now) result (read_number bytes.now) }
{
    match bytes {
        [a, b, c, d, rest @ ..] => Ok((u32::from_be_bytes([*a, *b, *c, *d]), rest)),
        _ => Err(Unread::BadByte { left: 0 }),
    }
}

fn take_integer(bytes: &[u8]) -> Result<(Instr, &[u8]), Unread>
    ensures { Gives (λ r. Got r.0 r.1.now) result (read_integer bytes.now) }
{
    match bytes {
        [a, b, c, d, e, f, g, h, rest @ ..] => {
            let bits = u64::from_be_bytes([*a, *b, *c, *d, *e, *f, *g, *h]);
            Ok((Instr::PushInt(bits.cast_signed()), rest))
        }
        _ => Err(Unread::BadByte { left: 0 }),
    }
}

fn take_truth(bytes: &[u8]) -> Result<(bool, &[u8]), Unread>
    ensures { Gives (λ r. Got r.0 r.1.now) result (read_truth bytes.now) }
{
    let (byte, rest) = taken!(take_byte(bytes));
    match byte {
        0 => Ok((false, rest)),
        1 => Ok((true, rest)),
        _ => Err(Unread::BadByte { left: bytes.len() }),
    }
}

fn take_operator(bytes: &[u8]) -> Result<(Op, &[u8]), Unread>
    ensures { Gives (λ r. Got r.0 r.1.now) result (read_operator bytes.now) }
{
    let (byte, rest) = taken!(take_byte(bytes));
    match byte {
        1 => Ok((Op::Add, rest)),
        2 => Ok((Op::Sub, rest)),
        3 => Ok((Op::Mul, rest)),
        4 => Ok((Op::Div, rest)),
        5 => Ok((Op::Rem, rest)),
        6 => Ok((Op::Neg, rest)),
        7 => Ok((Op::Less, rest)),
        8 => Ok((Op::LessEq, rest)),
        9 => Ok((Op::More, rest)),
        10 => Ok((Op::MoreEq, rest)),
        11 => Ok((Op::Same, rest)),
        12 => Ok((Op::Differs, rest)),
        13 => Ok((Op::And, rest)),
        14 => Ok((Op::Or, rest)),
        15 => Ok((Op::Not, rest)),
        _ => Err(Unread::BadByte { left: bytes.len() }),
    }
}

/// An item of a list in a file.
trait Listed: Drop {
    ghost reader: { Reader Self };

    fn take_item(alloc: Global, bytes: &[u8]) -> Result<(Self, &[u8]), Unread>
        ensures { Gives (λ r. Got r.0 r.1.now) result (reader bytes.now) };
}

/// Takes the number of items, and then the items. It allocates nothing in advance by that number:
/// memory grows with the items that were read, and each of them has at least one byte.
fn take_list<T: Listed>(alloc: Global, bytes: &[u8]) -> Result<(List<T>, &[u8]), Unread>
    ensures given { Gives (λ r. Got r.0 r.1.now) result (read_list T.reader bytes.now) }
    ensures short { IfOk result (λ r. length r.0 < 2 ^ 32) }
{
    let (count, mut rest) = taken!(take_number(bytes));
    let mut items = List::make(alloc);
    for _ in 0..count {
        let (item, behind) = taken!(T::take_item(alloc, rest));
        let Ok(()) = items.push(item) else {
            return Err(Unread::Memory);
        };
        rest = behind;
    }
    Ok((items, rest))
}

impl Listed for NameId {
    ghost reader = { read_name };

    fn take_item(_alloc: Global, bytes: &[u8]) -> Result<(NameId, &[u8]), Unread> {
        take_name(bytes)
    }
}

fn take_name(bytes: &[u8]) -> Result<(NameId, &[u8]), Unread>
    ensures { Gives (λ r. Got r.0 r.1.now) result (read_name bytes.now) }
{
    made!(number = take_number(bytes) => NameId(number))
}

impl Listed for Kind {
    ghost reader = { read_kind };

    fn take_item(_alloc: Global, bytes: &[u8]) -> Result<(Kind, &[u8]), Unread> {
        let (byte, rest) = taken!(take_byte(bytes));
        match byte {
            1 => Ok((Kind::Int, rest)),
            2 => Ok((Kind::Bool, rest)),
            3 => made!(class = take_name(rest) => Kind::Class(class)),
            _ => Err(Unread::BadByte { left: bytes.len() }),
        }
    }
}

/// Takes an optional kind: none after a byte 0, and a kind after a byte 1.
fn take_result(alloc: Global, bytes: &[u8]) -> Result<(Option<Kind>, &[u8]), Unread>
    ensures { Gives (λ r. Got r.0 r.1.now) result (read_option read_kind bytes.now) }
{
    let (byte, rest) = taken!(take_byte(bytes));
    match byte {
        0 => Ok((None, rest)),
        1 => made!(kind = Kind::take_item(alloc, rest) => Some(kind)),
        _ => Err(Unread::BadByte { left: bytes.len() }),
    }
}

fn take_answer(alloc: Global, bytes: &[u8]) -> Result<(Option<List<NameId>>, &[u8]), Unread>
    ensures { Gives (λ r. Got r.0 r.1.now) result (read_option (read_list read_name) bytes.now) }
{
    let (byte, rest) = taken!(take_byte(bytes));
    match byte {
        0 => Ok((None, rest)),
        1 => made!(names = take_list::<NameId>(alloc, rest) => Some(names)),
        _ => Err(Unread::BadByte { left: bytes.len() }),
    }
}

impl Listed for AltCode {
    ghost reader = { read_alternative };

    fn take_item(alloc: Global, bytes: &[u8]) -> Result<(AltCode, &[u8]), Unread> {
        let (answer, rest) = taken!(take_answer(alloc, bytes));
        made!(at = take_number(rest) => AltCode { answer, at })
    }
}

/// Takes a method and a number of arguments.
fn take_sent(bytes: &[u8]) -> Result<((NameId, u32), &[u8]), Unread>
    ensures { (make : Name → ℕ → Instruction) → Gives (λ r. Got (make r.0.0 r.0.1) r.1.now) result (read_sent make bytes.now) }
{
    let (method, rest) = taken!(take_name(bytes));
    made!(count = take_number(rest) => (method, count))
}

/// Takes the rest of an instruction after its first byte, which is at most the byte of `Branch`.
fn take_up_to_branch(byte: u8, rest: &[u8]) -> Result<(Instr, &[u8]), Unread>
    requires { byte ≤ 12 }
    ensures { Gives (λ r. Got r.0 r.1.now) result (read_instr (byte ∷ rest.now)) }
{
    match byte {
        1 => take_integer(rest),
        2 => made!(value = take_truth(rest) => Instr::PushBool(value)),
        3 => Ok((Instr::PushNil, rest)),
        4 => made!(at = take_number(rest) => Instr::Jump(at)),
        5 => made!(var = take_number(rest) => Instr::LoadI(var)),
        6 => made!(temp = take_number(rest) => Instr::LoadT(temp)),
        7 => Ok((Instr::SelfRef, rest)),
        8 => made!(var = take_number(rest) => Instr::StoreI(var)),
        9 => made!(temp = take_number(rest) => Instr::StoreT(temp)),
        10 => made!(op = take_operator(rest) => Instr::Oper(op)),
        11 => Ok((Instr::Pop, rest)),
        12 => made!(at = take_number(rest) => Instr::Branch(at)),
        _ => Err(Unread::BadByte {
            left: rest.len() + 1,
        }),
    }
}

/// Takes the rest of an instruction after its first byte, which is at least the byte of `Loop`.
fn take_from_loop(alloc: Global, byte: u8, rest: &[u8]) -> Result<(Instr, &[u8]), Unread>
    requires { 12 < byte }
    ensures { Gives (λ r. Got r.0 r.1.now) result (read_instr (byte ∷ rest.now)) }
{
    match byte {
        13 => Ok((Instr::Loop, rest)),
        14 => made!(method = take_name(rest) => Instr::Call(method)),
        15 => Ok((Instr::Ret, rest)),
        16 => made!(class = take_name(rest) => Instr::New(class)),
        17 => made!((method, count) = take_sent(rest) => Instr::Send { method, count }),
        18 => made!((method, count) = take_sent(rest) => Instr::Async { method, count }),
        19 => Ok((Instr::Write, rest)),
        20 => made!(text = take_name(rest) => Instr::WriteText(text)),
        21 => made!(names = take_list(alloc, rest) => Instr::Answer { names }),
        22 => made!(alts = take_list(alloc, rest) => Instr::Select { alts }),
        23 => Ok((Instr::Halt, rest)),
        24 => Ok((Instr::Post, rest)),
        _ => Err(Unread::BadByte {
            left: rest.len() + 1,
        }),
    }
}

impl Listed for Instr {
    ghost reader = { read_instr };

    fn take_item(alloc: Global, bytes: &[u8]) -> Result<(Instr, &[u8]), Unread> {
        let (byte, rest) = taken!(take_byte(bytes));
        if byte > 12 {
            take_from_loop(alloc, byte, rest)
        } else {
            take_up_to_branch(byte, rest)
        }
    }
}

/// Takes the number of words of a frame, and the code.
fn take_code(alloc: Global, bytes: &[u8]) -> Result<(BodyCode, &[u8]), Unread>
    ensures { Gives (λ r. Got (r.0.frame_words, r.0.code) r.1.now) result (read_code bytes.now) }
{
    let (frame_words, rest) = taken!(take_number(bytes));
    made!(code = take_list(alloc, rest) => BodyCode { frame_words, code })
}

fn take_method(alloc: Global, bytes: &[u8]) -> Result<(MethodCode, MethodKinds, &[u8]), Unread>
    ensures { Gives (λ r. Got (r.0, r.1) r.2.now) result (read_method bytes.now) }
{
    let (name, rest) = taken!(take_name(bytes));
    let (params, rest) = taken!(take_number(rest));
    let (temps, rest) = taken!(take_list::<Kind>(alloc, rest));
    let (result, rest) = taken!(take_result(alloc, rest));
    let (body, rest) = taken!(take_code(alloc, rest));
    let method = MethodCode {
        name,
        params,
        temps: temps.items().len() as u32,
        frame_words: body.frame_words,
        code: body.code,
    };
    Ok((method, MethodKinds { temps, result }, rest))
}

/// Appends an item to each of two lists.
fn push_both<T: Drop, U: Drop>(
    items: &mut List<T>,
    others: &mut List<U>,
    item: T,
    other: U,
) -> Result<(), Unread>
    ensures item { OnOk result (items.new ≡ items.old ++ item ∷ []) }
    ensures other { OnOk result (others.new ≡ others.old ++ other ∷ []) }
    ensures err { IfErr result (λ e. e ≡ Memory) }
{
    match items.push(item) {
        Ok(()) => match others.push(other) {
            Ok(()) => Ok(()),
            Err(_) => Err(Unread::Memory),
        },
        Err(_) => Err(Unread::Memory),
    }
}

fn take_methods(
    alloc: Global,
    bytes: &[u8],
) -> Result<(List<MethodCode>, List<MethodKinds>, &[u8]), Unread>
    ensures given { Gives (λ r. Got (pairs r.0 r.1) r.2.now) result (read_list read_method bytes.now) }
    ensures many { IfOk result (λ r. length r.0 ≡ length r.1) }
{
    let (count, mut rest) = taken!(take_number(bytes));
    let mut methods = List::make(alloc);
    let mut kinds = List::make(alloc);
    for _ in 0..count {
        let (method, method_kinds, behind) = taken!(take_method(alloc, rest));
        taken!(push_both(&mut methods, &mut kinds, method, method_kinds));
        rest = behind;
    }
    Ok((methods, kinds, rest))
}

fn take_class(alloc: Global, bytes: &[u8]) -> Result<(ClassCode, ClassKinds, &[u8]), Unread>
    ensures { Gives (λ r. Got (r.0, r.1) r.2.now) result (read_class bytes.now) }
{
    let (name, rest) = taken!(take_name(bytes));
    let (vars, rest) = taken!(take_list::<Kind>(alloc, rest));
    let (methods, kinds, rest) = taken!(take_methods(alloc, rest));
    let (body, rest) = taken!(take_code(alloc, rest));
    let class = ClassCode {
        name,
        vars: vars.items().len() as u32,
        methods,
        body,
    };
    let kinds = ClassKinds {
        vars,
        methods: kinds,
    };
    Ok((class, kinds, rest))
}

fn take_classes(
    alloc: Global,
    bytes: &[u8],
) -> Result<(List<ClassCode>, List<ClassKinds>, &[u8]), Unread>
    ensures given { Gives (λ r. Got (pairs r.0 r.1) r.2.now) result (read_list read_class bytes.now) }
    ensures many { IfOk result (λ r. length r.0 ≡ length r.1) }
{
    let (count, mut rest) = taken!(take_number(bytes));
    let mut classes = List::make(alloc);
    let mut kinds = List::make(alloc);
    for _ in 0..count {
        let (class, class_kinds, behind) = taken!(take_class(alloc, rest));
        taken!(push_both(&mut classes, &mut kinds, class, class_kinds));
        rest = behind;
    }
    Ok((classes, kinds, rest))
}

/// Takes the number of bytes, and the bytes.
fn take_text(bytes: &[u8]) -> Result<(&[u8], &[u8]), Unread>
    ensures { Gives (λ r. Got r.0.now r.1.now) result (read_text bytes.now) }
{
    let (count, rest) = taken!(take_number(bytes));
    let count = count as usize;
    if rest.len() < count {
        return Err(Unread::BadByte { left: 0 });
    }
    Ok(rest.split_at(count))
}

/// Adds a text to the table, unless a duplicate was found before.
/// `twice` is the place of the first duplicate, if any; so is the value that is returned.
fn add_name(names: &mut Names, twice: Option<u32>, text: &[u8]) -> Result<Option<u32>, AllocError>
    requires room { length names.old < 2 ^ 32 }
    ensures size { length names.new ≤ length names.old + 1 }
    ensures table { (texts : texts_list Text) → IsTable texts names.old twice → IfOk result (λ t. IsTable (texts ++ text.now ∷ []) names.new t) }
{
    if twice.is_some() {
        return Ok(twice);
    }
    let place = names.count() as u32;
    let id = names.add(text)?;
    if id.0 < place {
        Ok(Some(place))
    } else {
        Ok(None)
    }
}

/// Takes the number of names, and adds the names to this empty table.
/// It returns the place of the first text that equals an earlier one, if any.
/// The table then has only the texts before that one.
fn take_names<'a>(names: &mut Names, bytes: &'a [u8]) -> Result<(Option<u32>, &'a [u8]), Unread>
    requires { names.old ≡ [] }
    ensures given { IfOk result (λ r. (texts : texts_list Text) × (read_list read_text bytes.now ≡ Got texts r.1.now) × IsTable texts names.new r.0) }
    ensures stops { IfErr result (λ e. Stops e (read_list read_text bytes.now)) }
{
    let (count, mut rest) = taken!(take_number(bytes));
    let mut twice = None;
    for _ in 0..count {
        let (text, behind) = taken!(take_text(rest));
        let Ok(found) = add_name(names, twice, text) else {
            return Err(Unread::Memory);
        };
        twice = found;
        rest = behind;
    }
    Ok((twice, rest))
}

/// Takes the expected bytes, and stops at the first other byte.
fn take_exactly<'a>(expected: &[u8], bytes: &'a [u8]) -> Result<&'a [u8], Unread>
    ensures { Gives (λ r. Got tt r.now) result (read_exactly expected.now bytes.now) }
{
    let mut rest = bytes;
    for byte in expected {
        let (first, behind) = taken!(take_byte(rest));
        if first != *byte {
            return Err(Unread::BadByte { left: rest.len() });
        }
        rest = behind;
    }
    Ok(rest)
}

/// Takes a file. It does not reject duplicate names: it returns the place of the first one, if any.
fn take_file(alloc: Global, bytes: &[u8]) -> Result<(UnitFile, Option<u32>, &[u8]), Unread>
    ensures given { IfOk result (λ r. IsFront bytes.now r.0 r.1 r.2.now) }
    ensures stops { IfErr result (λ e. Stops e (read_file bytes.now)) }
{
    let rest = taken!(take_exactly(b"POOLU\x01", bytes));
    let mut names = Names::make(alloc);
    let (twice, rest) = taken!(take_names(&mut names, rest));
    let (classes, kinds, rest) = taken!(take_classes(alloc, rest));
    let unit = Unit { names, classes };
    let kinds = Kinds { classes: kinds };
    Ok((UnitFile { unit, kinds }, twice, rest))
}

fn bad_bytes(bytes: &[u8], left: usize) -> CodeFault
    requires { length bytes.now ≤ 67108864 }
    ensures { result ≡ BadBytes (length bytes.now - left) }
{
    CodeFault::BadBytes {
        at: bytes.len().saturating_sub(left) as u32,
    }
}

/// Reports `BadBytes` if bytes are left after the file that was taken off the front of these bytes,
/// and `NameTwice` if its table has a duplicate name.
fn check_whole(bytes: &[u8], twice: Option<u32>, rest: &[u8]) -> Result<(), CodeFault>
    requires { length bytes.now ≤ 67108864 }
    ensures says { (file : AFile) → IsFront bytes.now file twice rest.now → OnOk result (decoded_bytes bytes.now ≡ Says file) }
    ensures tells { (file : AFile) → IsFront bytes.now file twice rest.now → IfErr result (λ e. ReportsDecodeFault e (decoded_bytes bytes.now)) }
{
    if !rest.is_empty() {
        return Err(bad_bytes(bytes, rest.len()));
    }
    match twice {
        Some(place) => Err(CodeFault::NameTwice { place }),
        None => Ok(()),
    }
}

/// Reads an object code file from at most 64 MiB (67,108,864 bytes).
/// Its kinds fit its unit, and each of its lists has fewer than 2^32 items.
/// Reports `BadBytes` if the bytes do not have the format, and `NameTwice` if a name is a duplicate.
/// Reports `Memory` if out of memory. The memory in use grows with the number of bytes that are read,
/// not with the counts in them.
pub fn decode(alloc: Global, bytes: &[u8]) -> Result<UnitFile, CodeFault>
    requires { length bytes.now ≤ 67108864 }
    ensures says { IfOk result (λ f. decoded_bytes bytes.now ≡ Says f) }
    ensures tells { IfErr result (λ e. ReportsDecodeFault e (decoded_bytes bytes.now)) }
    ensures shaped { IfOk result (λ f. IsShaped f) }
    ensures short { IfOk result (λ f. IsShort f) }
{
    match take_file(alloc, bytes) {
        Ok((file, twice, rest)) => match check_whole(bytes, twice, rest) {
            Ok(()) => Ok(file),
            Err(fault) => Err(fault),
        },
        Err(Unread::BadByte { left }) => Err(bad_bytes(bytes, left)),
        Err(Unread::Memory) => Err(CodeFault::Memory),
    }
}
