//! The forms of a placement's lines.
ghost use Rattle.std.specs.Prelude.{◌≡◌};
ghost use Rattle.text_scan.specs.Lines.{words};
ghost use Rattle.text_scan.specs.ContentLines.{number_of};
ghost use Rattle.placement_reader.specs.Forms.{class_named, class_numbered, count_form, form_of, form_of_four, form_of_three, kind_of, spot_of};

use code_semantics::{ClassCode, Unit};
use run_types::NameId;
use text_scan::{UpToFour, number, split_up_to_four};

/// The kind of a limit of each node.
#[derive(Clone, Copy)]
pub enum Count {
    Objects,
    Frames,
    Cells,
}

/// The place of new objects of a class, with the number of the node as written.
#[derive(Clone, Copy)]
pub enum Spot {
    At(u64),
    Same,
    Spread,
}

/// A line of a placement, with its numbers as written. `class` is the index of the class in the unit, if the unit has
/// it.
#[derive(Clone, Copy)]
pub enum Form {
    Mesh { width: u64, height: u64 },
    Counted { kind: Count, number: u64 },
    Placed { class: Option<usize>, spot: Spot },
    Cut { from: u64, to: u64 },
    Routed { at: u64, goal: u64, next: u64 },
}

/// The index of the first class whose name has this number.
fn class_numbered(classes: &[ClassCode], name: NameId) -> Option<usize>
    ensures { result ≡ class_numbered 0 name.0 classes.now }
{
    for (place, class) in classes.iter().enumerate() {
        if class.name.0 == name.0 {
            return Some(place);
        }
    }
    None
}

/// The index of the class of this name.
fn class_named(unit: &Unit, word: &[u8]) -> Option<usize>
    ensures { result ≡ class_named unit.now word.now }
{
    let name = unit.names.find(word)?;
    class_numbered(unit.classes.items(), name)
}

fn kind_of(word: &[u8]) -> Option<Count>
    ensures { result ≡ kind_of word.now }
{
    if word == b"objects".as_slice() {
        return Some(Count::Objects);
    }
    if word == b"frames".as_slice() {
        return Some(Count::Frames);
    }
    if word == b"cells".as_slice() {
        return Some(Count::Cells);
    }
    None
}

fn count_form(word: &[u8], first: &[u8]) -> Option<Form>
    ensures { result ≡ count_form (kind_of word.now) (number_of first.now) }
{
    let kind = kind_of(word)?;
    let number = number(first)?;
    Some(Form::Counted { kind, number })
}

fn spot_of(word: &[u8]) -> Option<Spot>
    ensures { result ≡ spot_of word.now }
{
    if word == b"same".as_slice() {
        return Some(Spot::Same);
    }
    if word == b"spread".as_slice() {
        return Some(Spot::Spread);
    }
    None
}

fn form_of_three(unit: &Unit, word: &[u8], first: &[u8], second: &[u8]) -> Option<Form>
    ensures { result ≡ form_of_three unit.now word.now first.now second.now }
{
    if word == b"mesh".as_slice() {
        let width = number(first)?;
        let height = number(second)?;
        return Some(Form::Mesh { width, height });
    }
    if word == b"cut".as_slice() {
        let from = number(first)?;
        let to = number(second)?;
        return Some(Form::Cut { from, to });
    }
    if word == b"place".as_slice() {
        let spot = spot_of(second)?;
        let class = class_named(unit, first);
        return Some(Form::Placed { class, spot });
    }
    None
}

fn form_of_four(unit: &Unit, word: &[u8], first: &[u8], second: &[u8], third: &[u8]) -> Option<Form>
    ensures { result ≡ form_of_four unit.now word.now first.now second.now third.now }
{
    if word == b"route".as_slice() {
        let at = number(first)?;
        let goal = number(second)?;
        let next = number(third)?;
        return Some(Form::Routed { at, goal, next });
    }
    if word == b"place".as_slice() && second == b"at".as_slice() {
        let node = number(third)?;
        let class = class_named(unit, first);
        return Some(Form::Placed {
            class,
            spot: Spot::At(node),
        });
    }
    None
}

/// The form of a line, without a check of its numbers and its class. None if it has none.
pub fn form_in(unit: &Unit, line: &[u8]) -> Option<Form>
    ensures { result ≡ form_of unit.now (words line.now) }
{
    match split_up_to_four(line) {
        UpToFour::Two(word, first) => count_form(word, first),
        UpToFour::Three(word, first, second) => form_of_three(unit, word, first, second),
        UpToFour::Four(word, first, second, third) => form_of_four(
            unit, word, first, second, third,
        ),
        _ => None,
    }
}
