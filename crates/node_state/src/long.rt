//! The names of long answers, each once.
//!
//! An answer names methods of its class, and a class has at most 64. So a longer answer names some of them again.
ghost use Rattle.std.specs.Prelude.{◌≡◌, ◌<◌, ◌≤◌, ◌+◌, Some, length, slice_get, IfOk, IfSome, OnOk};
ghost use Rattle.std.specs.Option.{option_copied, MatchOption};
ghost use Rattle.code_semantics.specs.declared.unit.Unit.{Unit as Code};
ghost use Rattle.code_semantics.specs.declared.unit.Instr.TheVariants.{Select};
ghost use Rattle.code_semantics.specs.Frames.{code_of};
ghost use Rattle.code_semantics.specs.Proper.{IsProper};
ghost use Rattle.code_semantics.specs.StepInstructions.{FitsUnit, IsAtStep};
ghost use Rattle.node_heap.specs.Heaps.{object_at};
ghost use Rattle.object_interp.specs.Offers.{offer_at, offers_at, open_names};
ghost use Rattle.node_state.specs.LongAnswers.{instr_at, names_at, place_in, AreEachOnce, AreLongBefore, AreLongOf, HasFewNames, HasSameNames, IsSameAnswer};

use code_semantics::{AltCode, Instr, Unit};
use node_heap::Heap;
use object_interp::answer_names;
use run_types::{List, NameId};
use std::alloc::{AllocError, Global};

/// The greatest number of names of an answer that is not long.
const FEW: usize = 64;

/// Where an answer is: the index of its class in the unit, the index of its method in the class (None: the body), the
/// index of its instruction in the code, and the number of its alternative, from 1. The order of places is that of
/// these four, one after the other.
#[derive(Clone, Copy, PartialEq, Eq, PartialOrd, Ord)]
pub struct AnswerPlace {
    pub class: usize,
    pub method: Option<usize>,
    pub at: usize,
    pub alt: usize,
}

/// An answer of more than 64 names: its place, and its names, each once.
#[derive(Drop)]
pub struct LongAnswer {
    pub place: AnswerPlace,
    pub names: List<NameId>,
}

/// Lists the long answers of a unit, in the order of their places. One with more than 64 different names is left out.
/// Returns `Err` if memory runs out.
pub fn long_answers(alloc: Global, unit: &Unit) -> Result<List<LongAnswer>, AllocError>
    ensures { IfOk result (AreLongOf unit.now) }
{
    let mut found = List::make(alloc);
    for (class, code) in unit.classes.items().iter().enumerate() {
        let place = AnswerPlace {
            class,
            method: None,
            at: 0,
            alt: 0,
        };
        add_code(alloc, &mut found, place, code.body.code.items())?;
        for (method, of_method) in code.methods.items().iter().enumerate() {
            let place = AnswerPlace {
                method: Some(method),
                ..place
            };
            add_code(alloc, &mut found, place, of_method.code.items())?;
        }
    }
    Ok(found)
}

/// Appends the long answers of a method or body to those of all places before it.
fn add_code(
    alloc: Global,
    found: &mut List<LongAnswer>,
    place: AnswerPlace,
    code: &[Instr],
) -> Result<(), AllocError>
    ensures { (u : Code) → code_of (slice_get u.classes place.class) place.method ≡ code.now → AreLongBefore u (record place { at = 0; alt = 0 }) found.old → OnOk result (AreLongBefore u (record place { at = length code.now; alt = 0 }) found.new) }
{
    for (at, instr) in code.iter().enumerate() {
        add_instr(alloc, found, AnswerPlace { at, ..place }, instr)?;
    }
    Ok(())
}

/// Appends the long answers of an instruction to those of all places before it.
fn add_instr(
    alloc: Global,
    found: &mut List<LongAnswer>,
    place: AnswerPlace,
    instr: &Instr,
) -> Result<(), AllocError>
    ensures { (u : Code) → instr_at u place ≡ Some instr.now → AreLongBefore u (record place { alt = 0 }) found.old → OnOk result (AreLongBefore u (record place { at = place.at + 1; alt = 0 }) found.new) }
{
    match instr {
        Instr::Answer { names } => add_answer(alloc, found, AnswerPlace { alt: 1, ..place }, names),
        Instr::Select { alts } => add_alternatives(alloc, found, place, alts.items()),
        _ => Ok(()),
    }
}

/// Appends the long answers of the alternatives of a select to those of all places before them.
fn add_alternatives(
    alloc: Global,
    found: &mut List<LongAnswer>,
    place: AnswerPlace,
    alts: &[AltCode],
) -> Result<(), AllocError>
    ensures { (u : Code) → instr_at u place ≡ Some (Select alts.now) → AreLongBefore u (record place { alt = 1 }) found.old → OnOk result (AreLongBefore u (record place { alt = length alts.now + 1 }) found.new) }
{
    for (before, alternative) in alts.iter().enumerate() {
        if let Some(names) = &alternative.answer {
            let place = AnswerPlace {
                alt: before + 1,
                ..place
            };
            add_answer(alloc, found, place, names)?;
        }
    }
    Ok(())
}

/// Appends an answer, if it is long and has at most 64 different names, to the long answers of all places before it.
fn add_answer(
    alloc: Global,
    found: &mut List<LongAnswer>,
    place: AnswerPlace,
    names: &List<NameId>,
) -> Result<(), AllocError>
    ensures { (u : Code) → names_at u place ≡ Some names.now → AreLongBefore u place found.old → OnOk result (AreLongBefore u (record place { alt = place.alt + 1 }) found.new) }
{
    if names.items().len() <= FEW {
        return Ok(());
    }
    let Some(names) = different(alloc, names.items())? else {
        return Ok(());
    };
    match found.push(LongAnswer { place, names }) {
        Ok(()) => Ok(()),
        Err(failed) => {
            drop(failed);
            Err(AllocError)
        }
    }
}

/// The names of a list, each once. None if they are more than 64.
fn different(alloc: Global, names: &[NameId]) -> Result<Option<List<NameId>>, AllocError>
    ensures { IfOk result (λ r. MatchOption r (¬ (HasFewNames names.now)) (λ once. AreEachOnce once names.now)) }
{
    let mut once = List::make(alloc);
    for name in names {
        if once.items().contains(name) {
            continue;
        }
        if once.items().len() == FEW {
            return Ok(None);
        }
        let Ok(()) = once.push(*name) else {
            return Err(AllocError);
        };
    }
    Ok(Some(once))
}

/// The names that alternative `alt` of a slot, counted from 1, answers. If they are more than 64, of which at most 64
/// are different, each comes once. None exactly if the alternative is plain, is not open, or does not exist.
#[inline(always)]
pub(crate) fn names_of<'a>(
    unit: &'a Unit,
    heap: &Heap,
    long: &'a List<LongAnswer>,
    slot: u32,
    alt: u32,
) -> Option<&'a [NameId]>
    requires proper { IsProper unit.now }
    requires slot { slot < length heap.now.objects }
    requires fits { FitsUnit unit.now (object_at heap.now slot) }
    requires rests { IsAtStep unit.now (object_at heap.now slot) }
    requires long { AreLongOf unit.now long.now }
    ensures same { IsSameAnswer (option_copied result) (open_names (offer_at (offers_at unit.now (object_at heap.now slot)) alt)) }
    ensures few { IfSome result (λ names. HasFewNames names.now → length names.now ≤ 64) }
{
    match answer_names(unit, heap, slot, alt) {
        Some(names) if names.items().len() > FEW => {
            let place = place_of(heap, slot, alt);
            Some(each_once(long.items(), &place, names))
        }
        Some(names) => Some(names.items()),
        None => None,
    }
}

/// The place of alternative `alt`, counted from 1, of the current instruction of a slot.
fn place_of(heap: &Heap, slot: u32, alt: u32) -> AnswerPlace
    requires { slot < length heap.now.objects }
    ensures { result ≡ place_in (object_at heap.now slot) alt }
{
    let method = match heap.head(slot).method {
        Some(method) => Some(method as usize),
        None => None,
    };
    AnswerPlace {
        class: heap.class_of(slot) as usize,
        method,
        at: heap.at(slot) as usize,
        alt: alt as usize,
    }
}

/// The names of the long answer at this place, each once. If more than 64 are different, the names as they are. Long
/// answers are rare, so it is not inlined.
#[inline(never)]
fn each_once<'a>(
    long: &'a [LongAnswer],
    place: &AnswerPlace,
    names: &'a List<NameId>,
) -> &'a [NameId]
    requires many { 64 < length names.now }
    requires answer { (u : Code) × AreLongOf u long.now × (names_at u place.now ≡ Some names.now) }
    ensures same { HasSameNames result.now names.now }
    ensures few { HasFewNames names.now → length result.now ≤ 64 }
{
    match long.binary_search_by_key(place, |answer| answer.place) {
        Ok(index) => long[index].names.items(),
        Err(_) => names.items(),
    }
}
