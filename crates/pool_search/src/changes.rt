//! What labels change, and which names they give to new objects.
ghost use Rattle.std.specs.Prelude.{◌≡◌, IfSome, OnOk, true};
ghost use Rattle.label_list.specs.Parts.{labels_of};
ghost use Rattle.object_moves.specs.Followed.{AreChanged};
ghost use Rattle.reachability.specs.Search.{in_order, names_next};
ghost use Rattle.search_laws.specs.Dead.{changes, some_changes};
ghost use Rattle.search_laws.specs.ClosedBeside.{after_all};

use crate::explored::name_after;
use label_list::{LabelList, Part};
use object_moves::push_movers;
use run_types::Label;
use std::alloc::AllocError;

/// Whether a transition with this label changes the object.
pub fn changes(object: u32, label: &Label) -> bool
    ensures { result ≡ changes object label.now }
{
    match *label {
        Label::Local { object: one }
        | Label::New { object: one, .. }
        | Label::Send { object: one, .. }
        | Label::Write { object: one, .. }
        | Label::Pick { object: one, .. }
        | Label::Fault { object: one, .. } => one == object,
        Label::Take { receiver, .. } => receiver == object,
        Label::Answer {
            receiver,
            caller,
            ..
        }
        | Label::Return {
            receiver,
            caller,
            ..
        } => receiver == object || caller == object,
    }
}

/// Whether a transition of this part changes the object.
fn part_changes(object: u32, part: &Part) -> bool
    ensures { result ≡ some_changes object (labels_of part.now) }
{
    part.times() > 0 && changes(object, &part.label())
}

/// Whether a transition with one of these labels changes the object.
pub fn some_changes(object: u32, labels: &LabelList) -> bool
    ensures { result ≡ some_changes object labels.now }
{
    for part in labels.parts() {
        if part_changes(object, part) {
            return true;
        }
    }
    false
}

/// Makes `moved` the objects that transitions with these labels change. An error means out of memory.
pub fn changed_by(labels: &LabelList, moved: &mut Vec<u32>) -> Result<(), AllocError>
    ensures { OnOk result (AreChanged labels.now moved.new.items) }
{
    moved.clear();
    for part in labels.parts() {
        if part.times() > 0 {
            push_movers(moved, &part.label())?;
        }
    }
    Ok(())
}

/// Whether the label gives a new object this name, or makes no object.
fn names_next(next: u32, label: &Label) -> bool
    ensures { result ≡ names_next next label.now }
{
    match *label {
        Label::New { name, .. } => name == next,
        _ => true,
    }
}

/// The next free name after these labels, if they give new objects the names `first`, `first + 1`, .. in order. None if
/// they do not, or if no name of 32 bits is left.
pub fn next_after(first: u32, labels: &LabelList) -> Option<u32>
    ensures order { IfSome result (λ _. in_order first labels.now ≡ true) }
    ensures next { IfSome result (λ n. after_all first labels.now ≡ n) }
{
    let mut next = first;
    for part in labels.parts() {
        let Part::Other(label) = part else {
            continue;
        };
        if !names_next(next, label) {
            return None;
        }
        match name_after(next, label) {
            Some(after) => next = after,
            None => return None,
        }
    }
    Some(next)
}
