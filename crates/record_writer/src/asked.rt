//! The object whose request a line answers or posts.
ghost use Rattle.std.specs.Prelude.{◌≡◌, ℕ, IfSome, IfNone, true, false};
ghost use Rattle.run_types.specs.Asks.{asker, asker_at, asker_by, asker_of, is_asked, is_post_of};

use run_types::{Event, Label, Line, What};

/// The object whose request a `new` line answers. An object that makes another in a turn has posted nothing.
fn asker_at(event: Event, object: u32) -> Option<u32>
    ensures { result ≡ asker_at event object }
{
    match event {
        Event::Turn { .. } => None,
        Event::Link { .. } => Some(object),
        Event::Wire { .. } => None,
    }
}

fn asker_by(event: Event, label: &Label) -> Option<u32>
    ensures { result ≡ asker_by event label.now }
{
    match label {
        Label::New { object, .. } => asker_at(event, *object),
        Label::Answer { caller, .. } => Some(*caller),
        Label::Return { caller, .. } => Some(*caller),
        _ => None,
    }
}

/// The object whose request the line of an event answers. None if it answers none.
pub fn asker_of(event: Event, what: &What) -> Option<u32>
    ensures { result ≡ asker_of event what.now }
{
    match what {
        What::Step { label, .. } => asker_by(event, label),
        What::Created { object, .. } => Some(*object),
        What::Result { object, .. } => Some(*object),
        _ => None,
    }
}

/// The object whose request the line answers. None if it answers none.
pub fn asker(line: &Line) -> Option<u32>
    ensures { result ≡ asker line.now }
{
    match line {
        Line::Event { event, what, .. } => asker_of(*event, what),
        Line::End(_) => None,
    }
}

/// Reports whether the line carries a request number in the second form.
pub fn is_asked(line: &Line) -> bool
    ensures { result ≡ is_asked line.now }
{
    asker(line).is_some()
}

/// The object whose request the line posts. None if it posts none.
pub fn poster(what: &What) -> Option<u32>
    ensures posts { IfSome result (λ o. is_post_of o what.now ≡ true) }
    ensures alone { IfSome result (λ o. (q : ℕ) → (q ≡ o → ⊥) → is_post_of q what.now ≡ false) }
    ensures none { IfNone result ((q : ℕ) → is_post_of q what.now ≡ false) }
{
    match what {
        What::PostCreate { object, .. } => Some(*object),
        What::PostCall { object, .. } => Some(*object),
        _ => None,
    }
}
