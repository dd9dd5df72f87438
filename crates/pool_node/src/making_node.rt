//! The parts of a new node, and its root object.
ghost use Rattle.std.specs.Prelude.{◌≡◌, ◌<◌, ◌≤◌, [], None, Some, false, IfOk, replicate};
ghost use Rattle.code_semantics.specs.NodeWords.{most_vars};
ghost use Rattle.mesh_of_code.specs.Coded.{Placed, coded};
ghost use Rattle.node_semantics.specs.Node.{name_at};
ghost use Rattle.node_state.specs.OfUnit.{IsOfUnit};
ghost use Rattle.node_state.specs.Views.{NodeInvariant, node_of, slots_of};
ghost use Rattle.node_state.specs.Changes.{IsAdded};

use crate::receipt::class_named;
use code_semantics::Unit;
use node_acts::name_of;
use node_state::{NodeParts, ReadySet};
use rendezvous_protocol::Outstanding;
use run_types::{Error, List};
use std::alloc::{AllocError, Global};

/// The tables of a node's slots, as in its parts.
#[derive(Drop)]
pub(crate) struct SlotTables {
    pub outstanding: Outstanding,
    pub faults: List<Option<Error>>,
    pub goals: List<u32>,
    pub ready: ReadySet,
}

/// A list of `count` copies of a value. Returns `Err` if memory runs out.
pub(crate) fn filled<T: Copy + Drop>(
    alloc: Global,
    count: u32,
    value: T,
) -> Result<List<T>, AllocError>
    ensures { IfOk result (λ it. it ≡ replicate count value) }
{
    let mut list = List::make(alloc);
    for _i in 0..count {
        if list.push(value).is_err() {
            return Err(AllocError);
        }
    }
    Ok(list)
}

/// The tables of `slots` slots without objects. Returns `Err` if memory runs out.
pub(crate) fn slot_tables(alloc: Global, slots: u32) -> Result<SlotTables, AllocError>
    ensures outstanding { IfOk result (λ t. t.outstanding ≡ replicate slots None) }
    ensures faults { IfOk result (λ t. t.faults ≡ replicate slots None) }
    ensures goals { IfOk result (λ t. t.goals ≡ replicate slots 0) }
    ensures ready { IfOk result (λ t. t.ready ≡ replicate slots false) }
{
    let outstanding = Outstanding::make(alloc, slots)?;
    let faults = filled(alloc, slots, None)?;
    let goals = filled(alloc, slots, 0)?;
    let ready = ReadySet::make(alloc, slots)?;
    Ok(SlotTables {
        outstanding,
        faults,
        goals,
        ready,
    })
}

/// The largest number of variables of a class.
pub(crate) fn most_vars_of(unit: &Unit) -> u32
    ensures { result ≡ most_vars unit.now.classes }
{
    let classes = unit.classes.items();
    let mut most = 0;
    for i in (0..classes.len()).rev() {
        if classes[i].vars > most {
            most = classes[i].vars;
        }
    }
    most
}

/// Makes the root object in slot 0, and returns its name.
pub(crate) fn start_in(unit: &Unit, parts: &mut NodeParts) -> u32
    requires whole { NodeInvariant parts.old }
    requires unit { IsOfUnit unit.now (node_of parts.old) }
    requires empty { slots_of parts.old ≡ [] }
    ensures name { result ≡ name_at parts.old.id 0 }
    ensures root { (y : Placed) × ((coded unit.now).root ≡ Some y) × IsAdded unit.now parts.old parts.new y }
{
    let object = name_of(parts, 0);
    let classes = unit.classes.items();
    let name = classes[classes.len() - 1].name;
    if let Some(place) = class_named(unit, name) {
        let _placed = parts.add(unit, place).is_ok();
    }
    object
}
