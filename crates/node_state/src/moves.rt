//! The small changes of a node: each changes one slot and its ready bit.
ghost use Rattle.std.specs.Prelude.{◌≡◌, ◌↔◌, ℕ, ◌<◌, ◌++◌, ◌∷◌, [], true, None, Some, Err, IfOk, OnOk, OnErr, length, get_or};
ghost use Rattle.std.specs.List.{list_any};
ghost use Rattle.run_types.specs.declared.types.Value as V;
ghost use Rattle.code_semantics.specs.Kinds as C;
ghost use Rattle.code_semantics.specs.Kinds.{code_kind};
ghost use Rattle.code_semantics.specs.Step.{code_placed, code_serving};
ghost use Rattle.run_types.specs.declared.frames.CodeObject.{CodeObject};
ghost use Rattle.code_semantics.specs.Forget.{forget};
ghost use Rattle.object_interp.specs.Offers.{IsChoosing, IsSelecting, is_open_plain, offer_at, offers_at, open_names};
ghost use Rattle.mesh_of_code.specs.Coded.{coded, kind_of, placed};
ghost use Rattle.node_heap.specs.Heaps.{frames_used, object_at};
ghost use Rattle.slot_queues.specs.Mail.{box_of, lengths};
ghost use Rattle.node_semantics.specs.Node.{name_at};
ghost use Rattle.node_semantics.specs.Agrees.{IsUnused};
ghost use Rattle.mesh_semantics.specs.Requests.{is_at_once, posts_request};
ghost use Rattle.rendezvous_protocol.specs.Numbers.{is_number};
ghost use Rattle.node_state.specs.OfUnit.{IsOfUnit};
ghost use Rattle.node_state.specs.Views.{NodeInvariant, arrival_of, arrivals_of, node_of, number_by, slot_at, tail_of};
ghost use Rattle.node_state.specs.Changes.{IsAdded, IsChanged, serves_for_call};
ghost use Rattle.node_state.specs.Choices.{place_called};
ghost use Rattle.node_state.specs.Served.{IsServed};

use crate::long::names_of;
use crate::state::NodeParts;
use code_semantics::Unit;
use mailbox::Message;
use node_heap::HeapFull;
use object_interp::{enter, go_on, pick, resume_with, to_step};
use run_types::{Error, Serves, Value};

/// Who receives the value of a method that is started for this message.
fn serves(message: &Message) -> Serves
    ensures { result ≡ serves_for_call message.now.from message.now.call }
{
    match message.call {
        Some(number) => Serves::Caller {
            name: message.from,
            number,
        },
        None => Serves::Sender,
    }
}

impl NodeParts {
    /// Continues the object of a slot after a message was sent or a value was written.
    pub fn go_on(&mut self, unit: &Unit, slot: u32)
        requires whole { NodeInvariant self.old }
        requires unit { IsOfUnit unit.now (node_of self.old) }
        requires slot { slot < length self.old.heap.objects }
        requires free { get_or self.old.outstanding slot None ≡ None }
        requires once { is_at_once (kind_of (code_kind unit.now (object_at self.old.heap slot))) ≡ true }
        ensures { IsChanged unit.now self.old self.new slot (record (slot_at self.old slot) { state = (coded unit.now).done (slot_at self.old slot).state }) }
    {
        go_on(unit, &mut self.heap, slot);
        self.refresh(unit, slot);
    }

    /// Returns the value of the innermost method of a slot to its caller, and drops the caller's request number. The
    /// method ends, unless it has statements after its value. With those it continues for no caller.
    pub fn end_method(&mut self, unit: &Unit, slot: u32)
        requires whole { NodeInvariant self.old }
        requires unit { IsOfUnit unit.now (node_of self.old) }
        requires slot { slot < length self.old.heap.objects }
        requires free { get_or self.old.outstanding slot None ≡ None }
        requires returns { (caller number : ℕ) × (value : V.Value) × (code_kind unit.now (object_at self.old.heap slot) ≡ C.Return caller number value) }
        ensures { IsChanged unit.now self.old self.new slot
            (record (slot_at self.old slot) { state = (coded unit.now).returned (slot_at self.old slot).state; callers = tail_of (slot_at self.old slot).callers }) }
    {
        go_on(unit, &mut self.heap, slot);
        self.refresh(unit, slot);
    }

    /// Chooses the plain alternative `alt` of a slot, counted from 1. Requires that it is open.
    pub fn pick(&mut self, unit: &Unit, slot: u32, alt: u32)
        requires whole { NodeInvariant self.old }
        requires unit { IsOfUnit unit.now (node_of self.old) }
        requires slot { slot < length self.old.heap.objects }
        requires free { get_or self.old.outstanding slot None ≡ None }
        requires selecting { IsSelecting (code_kind unit.now (object_at self.old.heap slot)) }
        requires plain { is_open_plain (offer_at (offers_at unit.now (object_at self.old.heap slot)) alt) ≡ true }
        ensures { IsChanged unit.now self.old self.new slot (record (slot_at self.old slot) { state = (coded unit.now).picked (name_at self.old.id slot) (slot_at self.old slot).state alt }) }
    {
        pick(unit, &mut self.heap, slot, alt);
        self.refresh(unit, slot);
    }

    /// Gives the object of a slot the name of the object that it made.
    pub fn give(&mut self, unit: &Unit, slot: u32, value: Value)
        requires whole { NodeInvariant self.old }
        requires unit { IsOfUnit unit.now (node_of self.old) }
        requires slot { slot < length self.old.heap.objects }
        requires free { get_or self.old.outstanding slot None ≡ None }
        requires asks { posts_request (kind_of (code_kind unit.now (object_at self.old.heap slot))) ≡ true }
        ensures { IsChanged unit.now self.old self.new slot (record (slot_at self.old slot) { state = (coded unit.now).given (slot_at self.old slot).state value }) }
    {
        resume_with(unit, &mut self.heap, slot, value);
        self.refresh(unit, slot);
    }

    /// Stores the run-time error that the object of a slot meets.
    pub fn fault(&mut self, unit: &Unit, slot: u32, error: Error)
        requires whole { NodeInvariant self.old }
        requires unit { IsOfUnit unit.now (node_of self.old) }
        requires slot { slot < length self.old.heap.objects }
        requires free { get_or self.old.outstanding slot None ≡ None }
        ensures { IsChanged unit.now self.old self.new slot (record (slot_at self.old slot) { state = (coded unit.now).faulted (slot_at self.old slot).state error }) }
    {
        self.faults.set(slot as usize, Some(error));
        self.refresh(unit, slot);
    }

    /// Appends a message to those of a slot. Requires a free cell.
    pub fn deliver(&mut self, unit: &Unit, slot: u32, message: Message)
        requires whole { NodeInvariant self.old }
        requires unit { IsOfUnit unit.now (node_of self.old) }
        requires slot { slot < length self.old.heap.objects }
        requires room { lengths self.old.mailbox.boxes < self.old.mailbox.cells }
        ensures { IsChanged unit.now self.old self.new slot (record (slot_at self.old slot) { mailbox = (slot_at self.old slot).mailbox ++ arrival_of message ∷ [] }) }
    {
        if self.mailbox.post(slot, message).is_ok() {
            self.refresh(unit, slot);
        }
    }

    /// Issues a number for the request of a slot that has none, and stores the node to which the request goes. No other
    /// slot has the number.
    pub fn ask(&mut self, unit: &Unit, slot: u32, goal: u32) -> u32
        requires whole { NodeInvariant self.old }
        requires unit { IsOfUnit unit.now (node_of self.old) }
        requires slot { slot < length self.old.heap.objects }
        requires free { get_or self.old.outstanding slot None ≡ None }
        requires asks { posts_request (kind_of (code_kind unit.now (object_at self.old.heap slot))) ≡ true }
        ensures unused { IsUnused result (node_of self.old).state }
        ensures changed { IsChanged unit.now self.old self.new slot (record (slot_at self.old slot) { request = Some result; goal = goal }) }
    {
        let number = self.outstanding.issue(slot);
        self.goals.set(slot as usize, goal);
        self.refresh(unit, slot);
        number
    }

    /// Removes the first message of a slot that alternative `alt` answers, starts its method through the alternative,
    /// and returns the message. Requires a free frame. Returns None, and changes nothing, if there is no such message.
    pub fn serve(&mut self, unit: &Unit, slot: u32, alt: u32) -> Option<Message>
        requires whole { NodeInvariant self.old }
        requires unit { IsOfUnit unit.now (node_of self.old) }
        requires slot { slot < length self.old.heap.objects }
        requires free { get_or self.old.outstanding slot None ≡ None }
        requires choosing { IsChoosing (code_kind unit.now (object_at self.old.heap slot)) }
        requires frames { frames_used self.old.heap < self.old.heap.most_frames }
        ensures served { (place : ℕ) → place_called (box_of self.old.mailbox slot) (open_names (offer_at (offers_at unit.now (object_at self.old.heap slot)) alt)) ≡ Some place
            → IsServed unit.now self.old self.new slot alt place result }
        ensures none { place_called (box_of self.old.mailbox slot) (open_names (offer_at (offers_at unit.now (object_at self.old.heap slot)) alt)) ≡ None
            → (result ≡ None) × (self.new ≡ self.old) }
    {
        let Some(names) = names_of(unit, &self.heap, &self.long, slot, alt) else {
            return None;
        };
        let Some(message) = self.mailbox.take_first(slot, names) else {
            return None;
        };
        let serves = serves(&message);
        let entered = enter(
            unit,
            &mut self.heap,
            slot,
            alt,
            message.method,
            &message.args,
            serves,
        );
        if entered.is_ok() {
            self.refresh(unit, slot);
        }
        Some(message)
    }

    /// Makes an object in a new slot, and returns the number of the slot. `class` is the index of its class in the
    /// unit. Returns the limit that is reached, and changes nothing, if there is no slot or no frame for it.
    pub fn add(&mut self, unit: &Unit, class: u32) -> Result<u32, HeapFull>
        requires whole { NodeInvariant self.old }
        requires unit { IsOfUnit unit.now (node_of self.old) }
        requires class { class < length unit.now.classes }
        ensures slot { IfOk result (λ slot. slot ≡ length self.old.heap.objects) }
        ensures added { OnOk result ((y : CodeObject) × (code_placed unit.now class ≡ Some y) × IsAdded unit.now self.old self.new (placed y)) }
        ensures made { self.new.made ≡ self.old.made }
        ensures err { OnErr result (self.new ≡ self.old) }
        ensures objects { (result ≡ Err HeapFull.Objects) ↔ (length self.old.heap.objects ≡ self.old.heap.most_objects) }
        ensures frames { (result ≡ Err HeapFull.Frames) ↔ ((length self.old.heap.objects < self.old.heap.most_objects) × (frames_used self.old.heap ≡ self.old.heap.most_frames)) }
    {
        let vars = unit.classes.items()[class as usize].vars;
        match self.heap.place(class, vars) {
            Ok(slot) => {
                to_step(unit, &mut self.heap, slot);
                self.refresh(unit, slot);
                Ok(slot)
            }
            Err(full) => Err(full),
        }
    }

    /// Gives a value to the object whose outstanding request has this number, and returns its slot.
    pub fn settle(&mut self, unit: &Unit, number: u32, value: Value) -> u32
        requires whole { NodeInvariant self.old }
        requires unit { IsOfUnit unit.now (node_of self.old) }
        requires out { list_any (is_number number) self.old.outstanding ≡ true }
        ensures slot { result < length self.old.heap.objects }
        ensures number { (slot_at self.old result).request ≡ Some number }
        ensures changed { IsChanged unit.now self.old self.new result (record (slot_at self.old result) { state = (coded unit.now).given (slot_at self.old result).state value; request = None }) }
    {
        let slot = self.outstanding.settle(number);
        resume_with(unit, &mut self.heap, slot, value);
        self.refresh(unit, slot);
        slot
    }
}
