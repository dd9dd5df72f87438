//! Test of single turns and receipts of a node, worked out by hand from the rules of events, packets and limits.
//!
//! The names of the program are numbered in the order of their first tokens: `Child` 0, `Main` 1. The object in slot 0
//! of node 0 has the name 0, and that in slot 0 of node 1 the name 65536.
ghost use Rattle.std.specs.Prelude.{◌≡◌, ◌+◌, ◌<◌, ◌≤◌, true, length, IfSome};
ghost use Rattle.run_types.specs.PathFacts.{In};
ghost use Rattle.code_semantics.specs.Proper.{IsProper};
ghost use Rattle.code_semantics.specs.Suits.{Suits};
ghost use Rattle.mesh_of_code.specs.Coded.{class_numbers};
ghost use Rattle.pool_grammar.specs.Grammatical.{IsGrammatical};
ghost use Rattle.pool_syntax.specs.Spelled.{is_spelled};
ghost use Rattle.pool_syntax.specs.TreeOf.{program_of};
ghost use Rattle.test_parts.specs.DrivenNode.{IsDriven};

use code_semantics::Unit;
use command_inputs::{Parsed, judge_classes, read_program};
use placement_reader::read_placement;
use pool_compile::compile;
use pool_node::{Act, Node};
use rendezvous_protocol::Packet;
use run_types::{FullKind, Item, Label, NameId, Placement, Value, What};
use std::alloc::Global;

const PROGRAM: &[u8] = b"class Child body write 20 + 1 end class Main body new Child end";

const AMPLE: &[u8] = b"mesh 2 1
place Child at 1
";

const SMALL: &[u8] = b"mesh 2 1
place Child at 1
objects 1
cells 1
";

// A turn of at most so many local transitions, or the receipt of a request with this number from the object 0 for a new
// object.
#[derive(Clone, Copy)]
enum Step {
    Turn(u32),
    Create(u32),
}

// A step of node 1, the number of packets on the links that leave it, and its act.
type Row = (Step, u32, &'static str);

// Objects and classes are numbers; a packet stands behind a plus sign.
const SERVES: &[Row] = &[
    (Step::Turn(10), 0, "idle"),
    (Step::Create(5), 0, "new 0 65536 0 + created 5 0 65536"),
    (Step::Turn(10), 0, "local 65536 1"),
    (Step::Turn(10), 0, "write 65536 21"),
    (Step::Turn(10), 0, "idle"),
    (Step::Create(7), 0, "new 0 65537 0 + created 7 0 65537"),
];

// The packet with the name of the new object needs a cell, and one object is the limit.
const IS_FULL: &[Row] = &[
    (Step::Create(5), 1, "full cells"),
    (Step::Turn(10), 1, "idle"),
    (Step::Create(5), 0, "new 0 65536 0 + created 5 0 65536"),
    (Step::Create(6), 0, "full heap"),
    (Step::Turn(10), 1, "local 65536 1"),
];

/// Appends an act of the kinds above. If memory runs out, a part of it is missing.
fn put_act(told: &mut String, act: &Act) {
    let _ = match act {
        Act::Idle => told.push_str("idle"),
        Act::Full {
            kind: FullKind::Heap,
        } => told.push_str("full heap"),
        Act::Full {
            kind: FullKind::Cells,
        } => told.push_str("full cells"),
        Act::Line {
            what: What::Step {
                label: Label::Local { object },
                times,
            },
            packet: None,
        } => write!(told, "local {object} {times}"),
        Act::Line {
            what: What::Step {
                label: Label::Write {
                    object,
                    item: Item::Value(Value::Int(number)),
                },
                ..
            },
            packet: None,
        } => write!(told, "write {object} {number}"),
        Act::Line {
            what: What::Step {
                label: Label::New {
                    object,
                    name,
                    class,
                },
                ..
            },
            packet: Some(
                Packet::Created {
                    number,
                    to,
                    name: created,
                },
            ),
        } => write!(
            told,
            "new {object} {name} {} + created {number} {to} {created}",
            class.0
        ),
        _ => told.push_str("other"),
    };
}

/// Whether the first class of the unit has the number 0.
fn has_class(unit: &Unit) -> bool
    ensures { result ≡ true → In 0 (class_numbers unit.now.classes) }
{
    match unit.classes.items() {
        [first, ..] => first.name.0 == 0,
        [] => false,
    }
}

/// Makes a step of node 1, which has made at most as many objects of a class as it has made steps. None if the node may
/// not make it.
fn act_of(
    node: &mut Node,
    steps: u32,
    unit: &Unit,
    placement: &Placement,
    step: Step,
    leaving: u32,
) -> Option<Act>
    requires few { steps < 1000 }
    requires driven { IsDriven unit.now placement.now steps node.old }
    ensures { IsDriven unit.now placement.now (steps + 1) node.new }
{
    if u64::from(node.messages()) + u64::from(leaving) > u64::from(placement.cells) {
        return None;
    }
    match step {
        Step::Turn(quantum) if quantum > 0 => { Some(node.turn(unit, placement, quantum, leaving)) }
        Step::Create(number) if has_class(unit) => {
            let packet = Packet::Create {
                number,
                from: 0,
                node: 1,
                class: NameId(0),
            };
            Some(node.receive(unit, placement, packet, leaving))
        }
        _ => None,
    }
}

/// Appends the acts of node 1, a line each.
fn put_acts(told: &mut String, node: &mut Node, unit: &Unit, placement: &Placement, rows: &[Row])
    requires { IsDriven unit.now placement.now 0 node.old }
{
    let mut steps = 0;
    for (step, leaving, _) in rows {
        if steps < 1000 {
            if let Some(act) = act_of(node, steps, unit, placement, *step, *leaving) {
                put_act(told, &act);
            }
            steps += 1;
        }
        let _ = told.push_str("\n");
    }
}

/// The code of a program without class faults.
fn code_of(alloc: Global, parsed: &Parsed) -> Option<Unit>
    requires grammatical { IsGrammatical (program_of parsed.now.program) }
    requires spelled { is_spelled parsed.now.names (program_of parsed.now.program) ≡ true }
    ensures { IfSome result IsProper }
{
    match judge_classes(alloc, parsed) {
        Ok(checked) => compile(alloc, &checked).ok(),
        Err(_) => None,
    }
}

/// Appends the acts of node 1 of a placement.
fn put_acts_of(told: &mut String, alloc: Global, unit: &Unit, placement: &Placement, rows: &[Row])
    requires proper { IsProper unit.now }
    requires suits { Suits placement.now unit.now }
{
    if placement.width * placement.height == 2 {
        if let Ok(mut node) = Node::make(alloc, unit, placement, 1) {
            put_acts(told, &mut node, unit, placement, rows);
        }
    }
}

/// The same for a placement with this text.
fn put_placed(told: &mut String, alloc: Global, unit: &Unit, text: &[u8], rows: &[Row])
    requires proper { IsProper unit.now }
    requires small { length text.now ≤ 67108864 }
{
    if let Ok(placement) = read_placement(alloc, text, unit) {
        put_acts_of(told, alloc, unit, &placement, rows);
    }
}

/// Appends the acts that are wanted, a line each.
fn put_wanted(wanted: &mut String, rows: &[Row]) {
    for (_, _, act) in rows {
        let _ = wanted.push_str(act);
        let _ = wanted.push_str("\n");
    }
}

#[test]
fn a_node_acts_as_written(rt: HostRuntime) {
    let alloc = rt.alloc();
    let mut told = String::new(alloc);
    let mut wanted = String::new(alloc);
    put_wanted(&mut wanted, SERVES);
    put_wanted(&mut wanted, IS_FULL);
    if let Ok(parsed) = read_program(alloc, PROGRAM) {
        if let Some(unit) = code_of(alloc, &parsed) {
            put_placed(&mut told, alloc, &unit, AMPLE, SERVES);
            put_placed(&mut told, alloc, &unit, SMALL, IS_FULL);
        }
    }
    assert!(rt; told.as_str() == wanted.as_str(), "{told}");
}
