//! One node.
ghost use Rattle.std.specs.Prelude.{◌≡◌, ◌<◌, ◌≤◌, ◌+◌, ◌-◌, ◌*◌, ◌^◌, ℕ, [], ◌∷◌, length, slice_get, is_some, Some, IfOk, IsTrue, ◌↔◌};
ghost use Rattle.std.specs.List.{list_any};
ghost use Rattle.code_semantics.specs.Proper.{IsProper};
ghost use Rattle.code_semantics.specs.Suits.{Suits};
ghost use Rattle.code_semantics.specs.NodeWords.{most_vars};
ghost use Rattle.run_types.specs.Tables.{Each};
ghost use Rattle.mesh_semantics.specs.Act.{first_of};
ghost use Rattle.mesh_of_code.specs.Coded.{Placed, coded};
ghost use Rattle.node_semantics.specs.Node.{Slot, fresh_slot, message_count, name_at, ready_slots, receipt_act, turn_act};
ghost use Rattle.node_semantics.specs.Machine.{empty_node};
ghost use Rattle.node_semantics.specs.Agrees.{IsUnused};
ghost use Rattle.node_semantics.specs.Standings.{slot_standing};
ghost use Rattle.rendezvous_protocol.specs.Packets.{numbered};
ghost use Rattle.node_state.specs.OfUnit.{IsOfPlacement, IsOfUnit};
ghost use Rattle.node_acts.specs.ActOf.{act_of, act_seen};
ghost use Rattle.node_turns.specs.Acts.{IsActOf};
ghost use Rattle.pool_node.specs.Acceptable.{IsAcceptable};
ghost use Rattle.pool_node.specs.MadeCounts.{most_made};
ghost use Rattle.pool_node.specs.Standings.{told_standing};

use crate::making_node::{filled, most_vars_of, slot_tables, start_in};
use crate::receipt::{can_receive, receipt_of};
use crate::standing::{any_fault, standing_of};
use code_semantics::Unit;
use mailbox::Mailbox;
use node_acts::{Act, NodePlan, StepOutput, TurnOutcome};
use node_heap::{Heap, HeapLimits};
use node_state::{NodeParts, long_answers};
use node_turns::{first_ready, turn_of};
use rendezvous_protocol::Packet;
use run_types::{Placement, Standing};
use std::alloc::{AllocError, Global};
use std::marker::Model;

/// One node: its objects, the messages that have arrived for them, and the outstanding requests. It also has the slot
/// that stepped last, and for each class the number of objects that its objects have made.
#[derive(Drop)]
pub struct Node {
    parts: NodeParts,
}

impl Model for Node {
    ghost use Rattle.run_types.specs.contracts.frames.CodeObject as image;
    ghost use Rattle.run_types.specs.contracts.types.Error as error;
    ghost use Rattle.run_types.specs.contracts.types.Value as value;
    ghost use Rattle.node_state.specs.contracts.long.LongAnswer as long_answer;
    ghost use Rattle.node_state.specs.NodeOf.{NodeOf, node_code};

    ghost Value = { NodeOf };

    ghost coded = { node_code image.the_row.coded error.the_row.coded value.the_row.coded long_answer.the_row.coded };

    ghost use Rattle.node_state.specs.Views.{NodeInvariant, node_of};

    ghost view = { λ n. node_of n.parts };

    ghost invariant = { λ n. NodeInvariant n.parts };
}

impl Node {
    /// Makes a node of the placement without objects, and allocates all its memory. Returns `Err` if memory runs out.
    /// Requires a proper unit that fits the placement, and the number of a node of its mesh.
    pub fn make(
        alloc: Global,
        unit: &Unit,
        placement: &Placement,
        id: u32,
    ) -> Result<Node, AllocError>
        requires proper { IsProper unit.now }
        requires suits { Suits placement.now unit.now }
        requires id { id < placement.now.width * placement.now.height }
        ensures empty { IfOk result
            (λ n. n ≡ record {
              id = id;
              most_objects = placement.now.objects;
              most_frames = placement.now.frames;
              most_cells = placement.now.cells;
              most_vars = most_vars unit.now.classes;
              state = empty_node (coded unit.now);
              ready = [];
              long = n.long;
            }) }
        ensures unit { IfOk result (λ n. IsOfUnit unit.now n) }
        ensures placement { IfOk result (λ n. IsOfPlacement unit.now placement.now n) }
    {
        let vars = most_vars_of(unit);
        let limits = HeapLimits {
            node: id,
            objects: placement.objects,
            frames: placement.frames,
            vars,
        };
        let heap = Heap::make(alloc, limits)?;
        let mailbox = Mailbox::make(alloc, placement.objects, placement.cells)?;
        let tables = slot_tables(alloc, placement.objects)?;
        let made = filled(alloc, unit.classes.items().len() as u32, 0)?;
        let long = long_answers(alloc, unit)?;
        let parts = NodeParts {
            id,
            cells: placement.cells,
            heap,
            mailbox,
            outstanding: tables.outstanding,
            faults: tables.faults,
            goals: tables.goals,
            ready: tables.ready,
            last: None,
            made,
            long,
        };
        Ok(Node { parts })
    }

    /// Makes the root object, of the last class of the unit, in slot 0, and returns its name. Requires a node without
    /// objects.
    pub fn start_root(&mut self, unit: &Unit) -> u32
        requires unit { IsOfUnit unit.now self.old }
        requires empty { self.old.state.slots ≡ [] }
        ensures name { result ≡ name_at self.old.id 0 }
        ensures root { (y : Placed) × ((coded unit.now).root ≡ Some y) × (self.new ≡ record self.old { state = record self.old.state { slots = fresh_slot y ∷ [] }; ready = self.new.ready }) }
        ensures unit { IsOfUnit unit.now self.new }
    {
        start_in(unit, &mut self.parts)
    }

    /// Makes a turn: one ready object makes up to `quantum` local transitions, or one other step. It is the next ready
    /// object after the one that stepped last, in cyclic order of slots. Returns `Idle` exactly if no object is ready.
    /// Returns `Full` exactly if the step would exceed a limit: the first of heap, frames and cells. The node is then
    /// unchanged.
    pub fn turn_into(
        &mut self,
        plan: &NodePlan<'_>,
        quantum: u32,
        room: &mut StepOutput,
    ) -> TurnOutcome
        requires unit { IsOfUnit plan.now.unit.now self.old }
        requires placement { IsOfPlacement plan.now.unit.now plan.now.placement.now self.old }
        requires quantum { 1 ≤ quantum }
        requires cells { message_count self.old.state.slots + plan.now.leaving ≤ self.old.most_cells }
        requires countable { Each (λ k. k < 2 ^ 32 - 1) self.old.state.made }
        ensures act { (fresh : ℕ) × IsUnused fresh self.old.state
            × IsActOf (act_of result room.new) self.old self.new (turn_act (coded plan.now.unit.now) plan.now.placement.now quantum self.old.id plan.now.leaving fresh self.old.state) }
        ensures unit { IsOfUnit plan.now.unit.now self.new }
        ensures counts { (most : ℕ) → Each (λ k. k ≤ most) self.old.state.made → Each (λ k. k ≤ most + 1) self.new.state.made }
    {
        turn_of(plan, &mut self.parts, quantum, room)
    }

    /// `turn_into` with a buffer of its own.
    pub fn turn(&mut self, unit: &Unit, placement: &Placement, quantum: u32, leaving: u32) -> Act
        requires unit { IsOfUnit unit.now self.old }
        requires placement { IsOfPlacement unit.now placement.now self.old }
        requires quantum { 1 ≤ quantum }
        requires cells { message_count self.old.state.slots + leaving ≤ self.old.most_cells }
        requires countable { Each (λ k. k < 2 ^ 32 - 1) self.old.state.made }
        ensures act { (fresh : ℕ) × IsUnused fresh self.old.state
            × IsActOf (act_seen result) self.old self.new (turn_act (coded unit.now) placement.now quantum self.old.id leaving fresh self.old.state) }
        ensures unit { IsOfUnit unit.now self.new }
        ensures counts { (most : ℕ) → Each (λ k. k ≤ most) self.old.state.made → Each (λ k. k ≤ most + 1) self.new.state.made }
    {
        let plan = NodePlan {
            unit,
            placement,
            leaving,
        };
        let mut room = StepOutput::make();
        let told = self.turn_into(&plan, quantum, &mut room);
        act_told(told, &room)
    }

    /// Receives a packet at its goal. Returns `Full` exactly if the receipt would exceed a limit: the first of heap,
    /// frames and cells. The node is then unchanged. It never returns `Idle`.
    pub fn receive_into(
        &mut self,
        plan: &NodePlan<'_>,
        packet: Packet,
        room: &mut StepOutput,
    ) -> TurnOutcome
        requires unit { IsOfUnit plan.now.unit.now self.old }
        requires placement { IsOfPlacement plan.now.unit.now plan.now.placement.now self.old }
        requires cells { message_count self.old.state.slots + plan.now.leaving ≤ self.old.most_cells }
        requires packet { IsAcceptable (coded plan.now.unit.now) self.old.state (numbered packet).packet }
        ensures act { IsActOf (act_of result room.new) self.old self.new (receipt_act (coded plan.now.unit.now) plan.now.placement.now self.old.id plan.now.leaving (numbered packet) self.old.state) }
        ensures unit { IsOfUnit plan.now.unit.now self.new }
        ensures made { self.new.state.made ≡ self.old.state.made }
    {
        receipt_of(plan, &mut self.parts, packet, room)
    }

    /// Reports whether the node can receive a packet at its goal, as `receive_into` requires: the class of a new object
    /// exists, and a receiver has a slot.
    pub fn can_receive(&self, unit: &Unit, packet: &Packet) -> bool
        requires { IsOfUnit unit.now self.now }
        ensures { IsTrue result ↔ IsAcceptable (coded unit.now) self.now.state (numbered packet.now).packet }
    {
        can_receive(unit, &self.parts, packet)
    }

    /// `receive_into` with a buffer of its own.
    pub fn receive(
        &mut self,
        unit: &Unit,
        placement: &Placement,
        packet: Packet,
        leaving: u32,
    ) -> Act
        requires unit { IsOfUnit unit.now self.old }
        requires placement { IsOfPlacement unit.now placement.now self.old }
        requires cells { message_count self.old.state.slots + leaving ≤ self.old.most_cells }
        requires packet { IsAcceptable (coded unit.now) self.old.state (numbered packet).packet }
        ensures act { IsActOf (act_seen result) self.old self.new (receipt_act (coded unit.now) placement.now self.old.id leaving (numbered packet) self.old.state) }
        ensures unit { IsOfUnit unit.now self.new }
        ensures made { self.new.state.made ≡ self.old.state.made }
    {
        let plan = NodePlan {
            unit,
            placement,
            leaving,
        };
        let mut room = StepOutput::make();
        let told = self.receive_into(&plan, packet, &mut room);
        act_told(told, &room)
    }

    /// Reports whether an object of the node is ready.
    pub fn is_ready(&self, unit: &Unit) -> bool
        requires { IsOfUnit unit.now self.now }
        ensures { result ≡ is_some (first_of (ready_slots (coded unit.now) self.now.id self.now.state)) }
    {
        // The unit is an argument for the contract only.
        let _ = unit;
        first_ready(&self.parts, 0).is_some()
    }

    /// The number of objects, at most the limit.
    pub fn objects(&self) -> u32
        ensures count { result ≡ length self.now.state.slots }
        ensures within { (result ≤ self.now.most_objects) × (self.now.most_objects ≤ 4096) }
    {
        self.parts.heap.objects()
    }

    /// The number of messages that have arrived and were not taken, at most the cells.
    pub fn messages(&self) -> u32
        ensures count { result ≡ message_count self.now.state.slots }
        ensures within { result ≤ self.now.most_cells }
    {
        self.parts.mailbox.count()
    }

    /// The status of the object of a slot, as its node knows it. An object with an outstanding request calls or
    /// creates.
    pub fn standing(&self, unit: &Unit, slot: u32) -> Standing
        requires unit { IsOfUnit unit.now self.now }
        requires slot { slot < length self.now.state.slots }
        ensures { (s : Slot Placed) → slice_get self.now.state.slots slot ≡ Some s → told_standing result ≡ slot_standing (coded unit.now) (name_at self.now.id slot) s }
    {
        standing_of(unit, &self.parts, slot)
    }

    /// The class of a slot's object, as its index in the unit.
    pub fn class_of(&self, slot: u32) -> u32
        requires { slot < length self.now.state.slots }
        ensures { (s : Slot Placed) → slice_get self.now.state.slots slot ≡ Some s → result ≡ s.state.object.class }
    {
        self.parts.heap.class_of(slot)
    }

    /// The largest number of objects of one class that the objects of the node have made. The time is linear in the
    /// number of classes.
    pub fn most_made(&self) -> u32
        ensures { result ≡ most_made self.now.state.made }
    {
        greatest(self.parts.made.items())
    }

    /// Reports whether an object of the node has met a run-time error.
    pub fn any_faulted(&self) -> bool
        ensures { result ≡ list_any (λ (s : Slot Placed). is_some s.state.fault) self.now.state.slots }
    {
        any_fault(&self.parts)
    }
}

/// The largest of these counts; 0 if there is none.
fn greatest(counts: &[u32]) -> u32
    ensures { result ≡ most_made counts.now }
{
    let mut most = 0;
    for i in (0..counts.len()).rev() {
        if most < counts[i] {
            most = counts[i];
        }
    }
    most
}

/// The act of an outcome and its output buffer, as one value.
fn act_told(told: TurnOutcome, room: &StepOutput) -> Act
    ensures { act_seen result ≡ act_of told room.now }
{
    match told {
        TurnOutcome::Idle => Act::Idle,
        TurnOutcome::Line => Act::Line {
            what: room.what,
            packet: None,
        },
        TurnOutcome::Leaves => Act::Line {
            what: room.what,
            packet: Some(room.packet),
        },
        TurnOutcome::Full { kind } => Act::Full { kind },
    }
}
