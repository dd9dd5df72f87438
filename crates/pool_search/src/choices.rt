//! The labels of an entry that are tried: all, or those of one object where they are enough, or one creation.
ghost use Rattle.std.specs.Prelude.{◌≡◌, ◌<◌, ◌⊎◌, ℕ, suc, Some, IfSome, slice_get, true, not};
ghost use Rattle.std.specs.List.{list_any};
ghost use Rattle.search_laws.specs.Stubborn.{is_served};
ghost use Rattle.pool_search.specs.Trials.{IsBirthAt, is_asked, is_birth, is_tried};

use object_moves::same_values;
use run_types::Label;

/// The result of a trial of labels.
#[derive(Clone, Copy)]
pub enum Trial {
    /// Each of them is impossible or leads to an entry.
    Tried,
    /// The same, and one of them leads to the entry with this number.
    Led(u32),
    /// The search met a bound.
    Over,
}

impl Trial {
    /// Whether a bound was met.
    pub fn is_over(self) -> bool
        ensures { result ≡ not (is_tried self) }
    {
        matches!(self, Trial::Over)
    }
}

/// Whether the label is an answer, a take or a pick of this object.
fn is_served(object: u32, label: &Label) -> bool
    ensures { result ≡ is_served object label.now }
{
    match *label {
        Label::Answer { receiver, .. } | Label::Take { receiver, .. } => receiver == object,
        Label::Pick { object: picks, .. } => picks == object,
        _ => false,
    }
}

/// Whether the label is asked for: all are, or those that this object serves.
pub fn is_asked(served: Option<u32>, label: &Label) -> bool
    ensures { result ≡ is_asked served label.now }
{
    match served {
        None => true,
        Some(object) => is_served(object, label),
    }
}

/// Whether the object serves one of the labels.
pub fn serves_some(object: u32, labels: &[Label]) -> bool
    ensures { result ≡ list_any (is_served object) labels.now }
{
    labels.iter().any(|label| is_served(object, label))
}

/// Whether the label gives this name to a new object.
fn is_birth(next: u32, label: &Label) -> bool
    ensures { result ≡ is_birth next label.now }
{
    match *label {
        Label::New { name, .. } => name == next,
        _ => false,
    }
}

/// The place of the first label that gives this name to a new object.
pub fn birth_place(labels: &[Label], next: u32) -> Option<usize>
    ensures { IfSome result (λ place. IsBirthAt next labels.now place) }
{
    for (place, label) in labels.iter().enumerate() {
        if is_birth(next, label) {
            return Some(place);
        }
    }
    None
}

/// Whether both labels take an equal message of one sender.
fn is_same_take(left: &Label, right: &Label) -> bool
    ensures { result ≡ true → left.now ≡ right.now }
{
    match left {
        Label::Take {
            receiver,
            sender,
            method,
            args,
        } => match right {
            Label::Take {
                receiver: other_receiver,
                sender: other_sender,
                method: other_method,
                args: other_args,
            } => {
                *receiver == *other_receiver
                    && *sender == *other_sender
                    && method.0 == other_method.0
                    && same_values(args.values(), other_args.values())
            }
            _ => false,
        },
        _ => false,
    }
}

/// Whether the label at this place takes a message that is equal to the one that the label before it takes.
pub fn is_again(labels: &[Label], place: usize) -> bool
    ensures { result ≡ true → (i : ℕ) × (suc i ≡ place) × (slice_get labels.now i ≡ slice_get labels.now place) }
{
    let Some(before) = place.checked_sub(1) else {
        return false;
    };
    let Some(one) = labels.get(before) else {
        return false;
    };
    let Some(other) = labels.get(place) else {
        return false;
    };
    is_same_take(one, other)
}

/// The result of a trial after one more label, which leads from entry `at` to entry `to`. Only later entries count.
pub fn later(trial: Trial, at: u32, to: u32) -> Trial
    ensures tried { is_tried trial ≡ true → is_tried result ≡ true }
    ensures led { (i : ℕ) → result ≡ Trial.Led i → (trial ≡ Trial.Led i) ⊎ ((to ≡ i) × (at < i)) }
{
    if at < to { Trial::Led(to) } else { trial }
}
