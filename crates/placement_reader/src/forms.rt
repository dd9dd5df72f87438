//! Look-ups in the lines so far.
ghost use Rattle.std.specs.Prelude.{◌≡◌, ◌≤◌, ◌<◌, [], ◌∷◌, length, IfOk};
ghost use Rattle.std.specs.List.{range_with_len};
ghost use Rattle.code_semantics.specs.Suits.{IsFromTo, IsOfMesh};
ghost use Rattle.run_types.specs.Paths.{is_cut, route_of};
ghost use Rattle.placement_reader.specs.Forms.{cuts_of, is_class, is_kind, most, number_in, place_of, place_or_same, routes_of, spot_in};
ghost use Rattle.placement_reader.specs.ReaderFacts.{AreWellFormed};
ghost use Rattle.placement_reader.specs.Placements.{places_of};

use crate::form::{Count, Form, Spot};
use run_types::{List, Place};
use std::alloc::{AllocError, Global};

fn is_kind(one: Count, other: Count) -> bool
    ensures { result ≡ is_kind one other }
{
    match (one, other) {
        (Count::Objects, Count::Objects) => true,
        (Count::Frames, Count::Frames) => true,
        (Count::Cells, Count::Cells) => true,
        _ => false,
    }
}

fn is_class(class: usize, named: Option<usize>) -> bool
    ensures { result ≡ is_class class named }
{
    match named {
        Some(other) => other == class,
        None => false,
    }
}

/// The number that a line gives for this kind.
fn number_of_line(kind: Count, form: Form) -> Option<u64>
    ensures { result ≡ number_in kind (form ∷ []) }
{
    match form {
        Form::Counted {
            kind: other,
            number,
        } => {
            if is_kind(other, kind) {
                return Some(number);
            }
            None
        }
        _ => None,
    }
}

/// The number of the first line of this kind. None if there is none.
pub fn number_in(kind: Count, forms: &[Form]) -> Option<u64>
    ensures { result ≡ number_in kind forms.now }
{
    for form in forms {
        match number_of_line(kind, *form) {
            Some(number) => return Some(number),
            None => {}
        }
    }
    None
}

/// Reports whether the line cuts this link.
fn is_cut_by_line(from: u64, to: u64, form: Form) -> bool
    ensures { result ≡ is_cut (cuts_of (form ∷ [])) from to }
{
    match form {
        Form::Cut {
            from: other,
            to: end,
        } => other == from && end == to,
        _ => false,
    }
}

/// Reports whether one of the lines cuts this link.
pub fn is_cut(from: u64, to: u64, forms: &[Form]) -> bool
    ensures { result ≡ is_cut (cuts_of forms.now) from to }
{
    for form in forms {
        if is_cut_by_line(from, to, *form) {
            return true;
        }
    }
    false
}

/// The next node that a line gives for this node and goal.
fn route_of_line(at: u64, goal: u64, form: Form) -> Option<u64>
    ensures { result ≡ route_of (routes_of (form ∷ [])) at goal }
{
    match form {
        Form::Routed {
            at: other,
            goal: end,
            next,
        } => {
            if other == at && end == goal {
                return Some(next);
            }
            None
        }
        _ => None,
    }
}

/// The next node of the first route for this node and goal. None if there is none.
pub fn route_in(at: u64, goal: u64, forms: &[Form]) -> Option<u64>
    ensures { result ≡ route_of (routes_of forms.now) at goal }
{
    for form in forms {
        match route_of_line(at, goal, *form) {
            Some(next) => return Some(next),
            None => {}
        }
    }
    None
}

/// The place that a line gives for this class.
fn spot_of_line(class: usize, form: Form) -> Option<Spot>
    ensures { result ≡ spot_in class (form ∷ []) }
{
    match form {
        Form::Placed { class: named, spot } => {
            if is_class(class, named) {
                return Some(spot);
            }
            None
        }
        _ => None,
    }
}

/// The place of the first line on this class. None if there is none.
pub fn spot_in(class: usize, forms: &[Form]) -> Option<Spot>
    ensures { result ≡ spot_in class forms.now }
{
    for form in forms {
        match spot_of_line(class, *form) {
            Some(spot) => return Some(spot),
            None => {}
        }
    }
    None
}
