//! Settling: transitions that need no choice are made at once, and only the configuration after them is kept.
ghost use Rattle.std.specs.Prelude.{◌≡◌, ◌∷◌, ◌++◌, [], Ok, None, IfOk, IfSome, true, false};
ghost use Rattle.pool_semantics.specs.PlainOf.{is_spent};
ghost use Rattle.visited_set.specs.Courses.{course_of};
ghost use Rattle.pool_search.specs.Steps.{HasFollowed, HasMade, HasSettled, HasStepped};

use label_list::LabelList;
use pool_semantics::{Plain, Refuse, agent};
use run_types::Label;
use search_states::SpinWatch;
use std::alloc::{AllocError, Global};
use visited_set::Keeps;

/// The largest number of transitions that settling makes. Without a bound, an endless loop of a program would not end.
pub const SETTLE: u32 = 1_000_000;

/// Which object settling looks at first, and which it passes over. No proof depends on it, since settling may stop
/// anywhere.
#[derive(Drop)]
struct Turns<'a> {
    alloc: Global,
    /// The object that made the last transition, and a watch of its local ones.
    last: u32,
    watch: SpinWatch<'a>,
    /// The objects that spin: by local transitions alone they came back to a state that they had.
    spinning: Vec<u32>,
}

impl<'a> Turns<'a> {
    fn make(alloc: Global) -> Turns<'a> {
        Turns {
            alloc,
            last: 0,
            watch: SpinWatch::make(alloc),
            spinning: Vec::new(alloc),
        }
    }

    /// Notes that the transition with this label was made. An error means out of memory.
    fn note(&mut self, plain: &Plain<'a>, label: &Label) -> Result<(), AllocError> {
        let object = agent(label);
        let Label::Local { .. } = label else {
            self.last = object;
            self.watch = SpinWatch::make(self.alloc);
            return Ok(());
        };
        if object != self.last {
            self.last = object;
            self.watch = SpinWatch::make(self.alloc);
        }
        let Some(thing) = plain.state().objects.get(&object) else {
            return Ok(());
        };
        if self.watch.stops(thing)? {
            self.spinning.push(object)?;
        }
        Ok(())
    }
}

/// Whether the search follows transitions with this label.
fn is_followed(keeps: Keeps, label: &Label) -> bool
    ensures { result ≡ (course_of keeps).follows label.now }
{
    match label {
        Label::Local { .. } | Label::Return { .. } | Label::Send { .. } | Label::Fault { .. } => {
            true
        }
        Label::Write { .. } => match keeps {
            Keeps::States => true,
            Keeps::Writes => false,
        },
        _ => false,
    }
}

/// A possible transition that the search follows without keeping the configurations between. None if there is none.
fn to_follow(plain: &Plain<'_>, keeps: Keeps) -> Option<Label>
    requires { is_spent plain.now ≡ false }
    ensures { IfSome result (λ l. (course_of keeps).follows l ≡ true) }
{
    match keeps {
        Keeps::States => plain.without_choice(),
        Keeps::Writes => plain.without_write(),
    }
}

/// Makes the transition with this label. `false` if it is impossible; then nothing changes. An error means out of
/// memory.
pub fn make(plain: &mut Plain<'_>, label: &Label) -> Result<bool, AllocError>
    requires { is_spent plain.old ≡ false }
    ensures { IfOk result (λ yes. HasMade plain.old plain.new label.now yes) }
{
    match plain.apply(label) {
        Ok(()) => Ok(true),
        Err(Refuse::NotPossible { .. }) => Ok(false),
        Err(Refuse::Memory) => Err(AllocError),
    }
}

/// Makes a transition that the search follows, and returns its label. None if there is none. An error means out of
/// memory.
fn follow_once(plain: &mut Plain<'_>, keeps: Keeps) -> Result<Option<Label>, AllocError>
    requires { is_spent plain.old ≡ false }
    ensures { IfOk result (λ r. HasStepped (course_of keeps) plain.old plain.new r) }
{
    let Some(label) = to_follow(plain, keeps) else {
        return Ok(None);
    };
    match make(plain, &label) {
        Ok(true) => Ok(Some(label)),
        Ok(false) => Ok(None),
        Err(_) => Err(AllocError),
    }
}

/// Makes one transition that the search follows, and returns its label: the local one of the object `last`, if it can
/// make one, so that a chain of them looks at no other object. None if there is none. An error means out of memory.
fn settle_first(plain: &mut Plain<'_>, keeps: Keeps, last: u32) -> Result<Option<Label>, AllocError>
    requires { is_spent plain.old ≡ false }
    ensures { IfOk result (λ r. HasStepped (course_of keeps) plain.old plain.new r) }
{
    let alone = Label::Local { object: last };
    match make(plain, &alone) {
        Ok(true) => Ok(Some(alone)),
        Ok(false) => follow_once(plain, keeps),
        Err(_) => Err(AllocError),
    }
}

/// The same for the first object that can, and that does not spin.
fn settle_beside(
    plain: &mut Plain<'_>,
    keeps: Keeps,
    turns: &Turns<'_>,
) -> Result<Option<Label>, AllocError>
    requires { is_spent plain.old ≡ false }
    ensures { IfOk result (λ r. HasStepped (course_of keeps) plain.old plain.new r) }
{
    let mut labels = Vec::new(turns.alloc);
    plain.labels(0, &mut labels)?;
    for label in labels.iter() {
        if !is_followed(keeps, label) || turns.spinning.contains(&agent(label)) {
            continue;
        }
        match make(plain, label) {
            Ok(true) => return Ok(Some(*label)),
            Ok(false) => {}
            Err(_) => return Err(AllocError),
        }
    }
    Ok(None)
}

/// Makes one transition that the search follows, of an object that does not spin, and returns its label. None if there
/// is none. An error means out of memory.
fn settle_once(
    plain: &mut Plain<'_>,
    keeps: Keeps,
    turns: &Turns<'_>,
) -> Result<Option<Label>, AllocError>
    requires { is_spent plain.old ≡ false }
    ensures { IfOk result (λ r. HasStepped (course_of keeps) plain.old plain.new r) }
{
    if turns.spinning.is_empty() {
        settle_first(plain, keeps, turns.last)
    } else {
        settle_beside(plain, keeps, turns)
    }
}

/// Makes transitions that the search follows until none is left but those of objects that spin. Then the result is None.
/// After 1,000,000 of them it is the object that made the last one. An error means out of memory.
pub fn settle<'a>(plain: &mut Plain<'a>, keeps: Keeps) -> Result<Option<u32>, AllocError>
    requires { is_spent plain.old ≡ false }
    ensures { result ≡ Ok None → HasFollowed (course_of keeps) plain.old plain.new }
{
    let mut turns = Turns::make(plain.state().alloc);
    for _made in 0..SETTLE {
        match settle_once(plain, keeps, &turns) {
            Ok(Some(label)) => turns.note(plain, &label)?,
            Ok(None) => return Ok(None),
            Err(_) => return Err(AllocError),
        }
    }
    Ok(Some(turns.last))
}

/// Settles in the same way, and appends each label to `shown`. `false` if 1,000,000 labels did not settle it. An error
/// means out of memory, or more than 1,000,000 methods under way in one object.
pub fn settle_shown<'a>(
    plain: &mut Plain<'a>,
    keeps: Keeps,
    shown: &mut LabelList,
) -> Result<bool, AllocError>
    requires { is_spent plain.old ≡ false }
    ensures { result ≡ Ok true → HasSettled (course_of keeps) plain.old plain.new shown.old shown.new }
{
    let mut turns = Turns::make(plain.state().alloc);
    for _made in 0..SETTLE {
        match settle_once(plain, keeps, &turns) {
            Ok(Some(label)) => {
                turns.note(plain, &label)?;
                shown.push(&label)?;
            }
            Ok(None) => return Ok(true),
            Err(_) => return Err(AllocError),
        }
    }
    Ok(false)
}

/// Appends a label that was made to `shown`, and settles in the same way, with the same `false` and error.
pub fn settle_after(
    plain: &mut Plain<'_>,
    keeps: Keeps,
    label: &Label,
    shown: &mut LabelList,
) -> Result<bool, AllocError>
    requires { is_spent plain.old ≡ false }
    ensures { result ≡ Ok true → HasSettled (course_of keeps) plain.old plain.new (shown.old ++ label.now ∷ []) shown.new }
{
    match shown.push(label) {
        Ok(()) => settle_shown(plain, keeps, shown),
        Err(_) => Err(AllocError),
    }
}
