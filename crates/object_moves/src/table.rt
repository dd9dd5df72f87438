//! A table of object states, and of the transitions that are known of them.
ghost use Rattle.std.specs.Prelude.{◌≡◌, ◌<◌, ◌≤◌, ◌-◌, ◌^◌, [], Ok, None, Some, IfOk, IfSome, option_map, length, slice_get, take};
ghost use Rattle.std.specs.List.{All};
ghost use Rattle.pool_syntax.specs.TreeOf.{program_of};
ghost use Rattle.search_states.specs.States.{states};
ghost use Rattle.stepper_objects.specs.ObjectStates.{thing_object};
ghost use Rattle.object_moves.specs.Effects.{effect_mail, effect_new, effect_one, effect_two};
ghost use Rattle.object_moves.specs.Roles.{after, after_local, newborn};
ghost use Rattle.object_moves.specs.Rows.{AreWithin};
ghost use Rattle.object_moves.specs.Known.{IsKnownEdge, IsKnownRest, birth_label, duo_label, numbers_of_one, numbers_of_two, one_of, parcel_label, solo_label, state_at, two_of};

use crate::changes::{change_by, run_local};
use crate::known::{Birth, Duo, KnownEdge, KnownRest, Next, One, Pair, Parcel, Solo, Two};
use crate::parts::{Part, Role, edge_hash, rest_hash, same_part};
use object_acts::act::Act;
use object_acts::lookup::find_class;
use pool_semantics::redex_args;
use pool_syntax::Program;
use run_types::NameId;
use search_states::{StateTable, copy};
use std::alloc::{AllocError, Global};
use std::collections::HashMap;
use stepper_objects::object_state::ObjectState;

/// A table of object states of one program, and where their parts in transitions lead. It finds an edge by its hash, the
/// latest of those with the same hash. No proof depends on the hashes.
#[derive(Drop)]
pub struct MoveTable<'a> {
    alloc: Global,
    program: &'a Program,
    table: StateTable<'a>,
    edges: Vec<KnownEdge>,
    rests: Vec<KnownRest>,
    /// The messages that objects send after their local transitions.
    sent: Vec<Parcel>,
    latest_edges: HashMap<u64, u32>,
    latest_rests: HashMap<u64, u32>,
    ghost known_edges: { All (IsKnownEdge (program_of program.now) (states table)) edges.items },
    ghost known_rests: { All (IsKnownRest (program_of program.now) (states table)) rests.items },
}

/// What an object in this state makes next, if it is no local transition, needs no choice and sends no message.
fn next_of<'a>(program: &'a Program, object: u32, thing: &ObjectState<'a>) -> Next {
    if thing.fault.is_some() {
        return Next::Nothing;
    }
    match thing.act(program, object) {
        Act::Return { caller, value } => Next::Returns { caller, value },
        Act::Write(item) => Next::Makes(Solo::Write(item)),
        Act::Fault(error) => Next::Makes(Solo::Fault(error)),
        _ => Next::Nothing,
    }
}

/// The message that an object in this state sends next. None if it sends none.
fn next_message<'a>(program: &'a Program, object: u32, thing: &ObjectState<'a>) -> Option<Parcel> {
    if thing.fault.is_some() {
        return None;
    }
    match thing.act(program, object) {
        Act::Async { to, method } => match redex_args(&thing.work) {
            None => None,
            Some(args) => Some(Parcel {
                takes: false,
                other: to,
                method,
                args,
            }),
        },
        _ => None,
    }
}

impl<'a> MoveTable<'a> {
    /// An empty table for this program.
    pub fn make(alloc: Global, program: &'a Program) -> MoveTable<'a>
        ensures states { states result.table ≡ [] }
        ensures program { program_of result.program.now ≡ program_of program.now }
    {
        MoveTable {
            alloc,
            program,
            table: StateTable::make(alloc),
            edges: Vec::new(alloc),
            rests: Vec::new(alloc),
            sent: Vec::new(alloc),
            latest_edges: HashMap::new(alloc),
            latest_rests: HashMap::new(alloc),
        }
    }

    /// The program.
    pub fn program(&self) -> &'a Program
        ensures { program_of result.now ≡ program_of self.now.program.now }
    {
        self.program
    }

    /// The allocator of its memory.
    pub fn alloc(&self) -> Global {
        self.alloc
    }

    /// The message with this number, that an object sends after its local transitions. None if there is none.
    pub(crate) fn sent_next(&self, at: u32) -> Option<Parcel>
        ensures { result ≡ slice_get self.now.sent.items at }
    {
        self.sent.as_slice().get(at as usize).copied()
    }

    /// The object with this number. None if the table has no such number.
    pub fn get(&self, number: u32) -> Option<&ObjectState<'a>>
        ensures { option_map (λ t. thing_object t.now) result ≡ slice_get (states self.now.table) number }
    {
        self.table.get(number)
    }

    /// The number of an object's state. Adds the state if it is not in the table.
    /// None if it is new and the table has 2^32 - 1 states. An error means out of memory.
    pub fn number_of(&mut self, thing: &ObjectState<'a>) -> Result<Option<u32>, AllocError>
        ensures found { IfOk result (λ o. IfSome o (λ n. slice_get (states self.new.table) n ≡ Some (thing_object thing.now))) }
        ensures grows { take (length (states self.old.table)) (states self.new.table) ≡ states self.old.table }
        ensures full { result ≡ Ok None → 2 ^ 32 - 1 ≤ length (states self.old.table) }
        ensures program { self.new.program ≡ self.old.program }
    {
        self.table.number_of(thing)
    }

    /// What is known of the part of this object in this state.
    fn known_edge(&self, hash: u64, object: u32, state: u32, part: &Part) -> Option<One>
        ensures is { IfSome result (λ m. after (program_of self.now.program.now) object part.now (state_at (states self.now.table) state) ≡ one_of (states self.now.table) m) }
        ensures within { IfSome result (λ m. AreWithin (states self.now.table) (numbers_of_one m)) }
    {
        let at = *self.latest_edges.get(&hash)?;
        let known = self.edges.as_slice().get(at as usize)?;
        if known.object == object && known.state == state && same_part(&known.part, part) {
            Some(known.to)
        } else {
            None
        }
    }

    /// Where the part of this object in this state leads. None if the table of states is full. An error means out of
    /// memory.
    fn compute_edge(
        &mut self,
        object: u32,
        state: u32,
        part: &Part,
    ) -> Result<Option<One>, AllocError>
        requires state { state < length (states self.old.table) }
        ensures grows { take (length (states self.old.table)) (states self.new.table) ≡ states self.old.table }
        ensures program { self.new.program ≡ self.old.program }
        ensures is { IfOk result (λ o. IfSome o (λ m. after (program_of self.old.program.now) object part.now (state_at (states self.old.table) state) ≡ one_of (states self.new.table) m)) }
        ensures within { IfOk result (λ o. IfSome o (λ m. AreWithin (states self.new.table) (numbers_of_one m))) }
    {
        let Some(before) = self.table.get(state) else {
            unreachable!();
        };
        let mut next = copy(self.alloc, before)?;
        match change_by(self.alloc, self.program, object, &mut next, part) {
            Ok(true) => self.edge_to(&next),
            Ok(false) => Ok(Some(One::Impossible)),
            Err(_) => Err(AllocError),
        }
    }

    /// The edge to this state. None if the table of states is full. An error means out of memory.
    fn edge_to(&mut self, state: &ObjectState<'a>) -> Result<Option<One>, AllocError>
        ensures grows { take (length (states self.old.table)) (states self.new.table) ≡ states self.old.table }
        ensures program { self.new.program ≡ self.old.program }
        ensures is { IfOk result (λ o. IfSome o (λ m. Some (thing_object state.now) ≡ one_of (states self.new.table) m)) }
        ensures within { IfOk result (λ o. IfSome o (λ m. AreWithin (states self.new.table) (numbers_of_one m))) }
    {
        match self.number_of(state) {
            Ok(Some(to)) => Ok(Some(One::To(to))),
            Ok(None) => Ok(None),
            Err(_) => Err(AllocError),
        }
    }

    /// Keeps where a part leads, if there is room for it. An error means out of memory.
    fn keep_edge(&mut self, hash: u64, known: KnownEdge) -> Result<(), AllocError>
        requires { IsKnownEdge (program_of self.old.program.now) (states self.old.table) known }
        ensures states { states self.new.table ≡ states self.old.table }
        ensures program { self.new.program ≡ self.old.program }
    {
        let Ok(at) = u32::try_from(self.edges.len()) else {
            return Ok(());
        };
        self.latest_edges.insert(hash, at)?;
        self.edges.push(known)?;
        Ok(())
    }

    /// Where the part of this object in this state leads. None if the table of states is full. An error means out of
    /// memory.
    pub fn follow(
        &mut self,
        object: u32,
        state: u32,
        part: &Part,
    ) -> Result<Option<One>, AllocError>
        requires state { state < length (states self.old.table) }
        ensures grows { take (length (states self.old.table)) (states self.new.table) ≡ states self.old.table }
        ensures program { self.new.program ≡ self.old.program }
        ensures is { IfOk result (λ o. IfSome o (λ m. after (program_of self.old.program.now) object part.now (state_at (states self.old.table) state) ≡ one_of (states self.new.table) m)) }
        ensures within { IfOk result (λ o. IfSome o (λ m. AreWithin (states self.new.table) (numbers_of_one m))) }
    {
        let hash = edge_hash(object, state, part);
        if let Some(to) = self.known_edge(hash, object, state, part) {
            return Ok(Some(to));
        }
        let Some(to) = self.compute_edge(object, state, part)? else {
            return Ok(None);
        };
        let known = KnownEdge {
            object,
            state,
            part: *part,
            to,
        };
        self.keep_edge(hash, known)?;
        Ok(Some(to))
    }

    /// A new object of this class, if there is such a class. None if the table of states is full. An error means out of
    /// memory.
    fn newborn(&mut self, class: NameId) -> Result<Option<One>, AllocError>
        ensures grows { take (length (states self.old.table)) (states self.new.table) ≡ states self.old.table }
        ensures program { self.new.program ≡ self.old.program }
        ensures is { IfOk result (λ o. IfSome o (λ m. newborn (program_of self.old.program.now) class ≡ one_of (states self.new.table) m)) }
        ensures within { IfOk result (λ o. IfSome o (λ m. AreWithin (states self.new.table) (numbers_of_one m))) }
    {
        let Some(declared) = find_class(self.program, class.0) else {
            return Ok(Some(One::Impossible));
        };
        match ObjectState::make(self.alloc, declared) {
            Ok(state) => self.edge_to(&state),
            Err(_) => Err(AllocError),
        }
    }

    /// What a transition of one object makes of the object in this state. None if the table of states is full. An error
    /// means out of memory.
    pub fn one(&mut self, object: u32, state: u32, act: Solo) -> Result<Option<One>, AllocError>
        requires state { state < length (states self.old.table) }
        ensures grows { take (length (states self.old.table)) (states self.new.table) ≡ states self.old.table }
        ensures program { self.new.program ≡ self.old.program }
        ensures is { IfOk result (λ o. IfSome o (λ m. effect_one (program_of self.old.program.now) (solo_label object act) (state_at (states self.old.table) state) ≡ one_of (states self.new.table) m)) }
        ensures within { IfOk result (λ o. IfSome o (λ m. AreWithin (states self.new.table) (numbers_of_one m))) }
    {
        self.follow(object, state, &Part::alone(act))
    }

    /// What a message that is sent or taken makes of the object in this state. None if the table of states is full. An
    /// error means out of memory.
    pub fn mail(&mut self, object: u32, state: u32, act: &Parcel) -> Result<Option<One>, AllocError>
        requires state { state < length (states self.old.table) }
        ensures grows { take (length (states self.old.table)) (states self.new.table) ≡ states self.old.table }
        ensures program { self.new.program ≡ self.old.program }
        ensures is { IfOk result (λ o. IfSome o (λ m. effect_mail (program_of self.old.program.now) (parcel_label object act.now) (state_at (states self.old.table) state) ≡ one_of (states self.new.table) m)) }
        ensures within { IfOk result (λ o. IfSome o (λ m. AreWithin (states self.new.table) (numbers_of_one m))) }
    {
        self.follow(object, state, &Part::mail(act))
    }

    /// What a transition that makes an object makes of its maker, and the new object. None if the table of states is
    /// full. An error means out of memory.
    pub fn new(&mut self, birth: Birth) -> Result<Option<Two>, AllocError>
        requires state { birth.state < length (states self.old.table) }
        ensures grows { take (length (states self.old.table)) (states self.new.table) ≡ states self.old.table }
        ensures program { self.new.program ≡ self.old.program }
        ensures is { IfOk result (λ o. IfSome o (λ m. effect_new (program_of self.old.program.now) (birth_label birth) (state_at (states self.old.table) birth.state) ≡ two_of (states self.new.table) m)) }
        ensures within { IfOk result (λ o. IfSome o (λ m. AreWithin (states self.new.table) (numbers_of_two m))) }
    {
        let part = Part::bare(Role::Makes {
            class: birth.class,
            name: birth.name,
        });
        match self.follow(birth.object, birth.state, &part) {
            Ok(Some(One::To(maker))) => match self.newborn(birth.class) {
                Ok(Some(One::To(new))) => Ok(Some(Two::To(maker, new))),
                Ok(Some(One::Impossible)) => Ok(Some(Two::Impossible)),
                Ok(None) => Ok(None),
                Err(_) => Err(AllocError),
            },
            Ok(Some(One::Impossible)) => Ok(Some(Two::Impossible)),
            Ok(None) => Ok(None),
            Err(_) => Err(AllocError),
        }
    }

    /// What an answer or a return makes of these two objects in these states. None if the table of states is full. An
    /// error means out of memory.
    pub fn two(&mut self, pair: Pair, act: &Duo) -> Result<Option<Two>, AllocError>
        requires serving { pair.serving < length (states self.old.table) }
        requires asking { pair.asking < length (states self.old.table) }
        ensures grows { take (length (states self.old.table)) (states self.new.table) ≡ states self.old.table }
        ensures program { self.new.program ≡ self.old.program }
        ensures is { IfOk result (λ o. IfSome o (λ m. effect_two (program_of self.old.program.now) (duo_label pair.receiver pair.caller act.now) (state_at (states self.old.table) pair.serving) (state_at (states self.old.table) pair.asking) ≡ two_of (states self.new.table) m)) }
        ensures within { IfOk result (λ o. IfSome o (λ m. AreWithin (states self.new.table) (numbers_of_two m))) }
    {
        let asking = Part::asking(pair.receiver, act);
        let serving = Part::serving(pair.caller, act);
        match self.follow(pair.caller, pair.asking, &asking) {
            Ok(Some(One::To(asked))) => {
                match self.follow(pair.receiver, pair.serving, &serving) {
                    Ok(Some(One::To(served))) => Ok(Some(Two::To(served, asked))),
                    Ok(Some(One::Impossible)) => Ok(Some(Two::Impossible)),
                    Ok(None) => Ok(None),
                    Err(_) => Err(AllocError),
                }
            }
            Ok(Some(One::Impossible)) => Ok(Some(Two::Impossible)),
            Ok(None) => Ok(None),
            Err(_) => Err(AllocError),
        }
    }

    /// What is known of the local transitions of the object in this state.
    fn known_rest(&self, hash: u64, object: u32, state: u32) -> Option<KnownRest>
        ensures is { IfSome result (λ k. after_local (program_of self.now.program.now) object k.steps (state_at (states self.now.table) state) ≡ Some (state_at (states self.now.table) k.to)) }
        ensures within { IfSome result (λ k. k.to < length (states self.now.table)) }
    {
        let at = *self.latest_rests.get(&hash)?;
        let known = self.rests.as_slice().get(at as usize)?;
        if known.object == object && known.state == state {
            Some(*known)
        } else {
            None
        }
    }

    /// What an object makes next that sends this message. An error means out of memory.
    fn sends(&mut self, act: Parcel) -> Result<Next, AllocError>
        ensures states { states self.new.table ≡ states self.old.table }
        ensures program { self.new.program ≡ self.old.program }
    {
        let Ok(at) = u32::try_from(self.sent.len()) else {
            return Ok(Next::Nothing);
        };
        self.sent.push(act)?;
        Ok(Next::Sends(at))
    }

    /// What the object in this state makes next. An error means out of memory.
    fn next_after(&mut self, object: u32, state: &ObjectState<'a>) -> Result<Next, AllocError>
        ensures states { states self.new.table ≡ states self.old.table }
        ensures program { self.new.program ≡ self.old.program }
    {
        match next_message(self.program, object, state) {
            Some(act) => self.sends(act),
            None => Ok(next_of(self.program, object, state)),
        }
    }

    /// Makes the local transitions of the object in this state. None if they are too many, or if the table of states is
    /// full. An error means out of memory.
    fn compute_rest(&mut self, object: u32, state: u32) -> Result<Option<KnownRest>, AllocError>
        requires { state < length (states self.old.table) }
        ensures grows { take (length (states self.old.table)) (states self.new.table) ≡ states self.old.table }
        ensures program { self.new.program ≡ self.old.program }
        ensures is { IfOk result (λ o. IfSome o (λ k. IsKnownRest (program_of self.old.program.now) (states self.new.table) k × (k.object ≡ object) × (k.state ≡ state))) }
    {
        let Some(before) = self.table.get(state) else {
            unreachable!();
        };
        let mut last = copy(self.alloc, before)?;
        let Some(steps) = run_local(self.alloc, self.program, object, &mut last)? else {
            return Ok(None);
        };
        let Some(to) = self.number_of(&last)? else {
            return Ok(None);
        };
        let next = self.next_after(object, &last)?;
        Ok(Some(KnownRest {
            object,
            state,
            steps,
            to,
            next,
        }))
    }

    /// Keeps where local transitions lead, if there is room for it. An error means out of memory.
    fn keep_rest(&mut self, hash: u64, known: KnownRest) -> Result<(), AllocError>
        requires { IsKnownRest (program_of self.old.program.now) (states self.old.table) known }
        ensures states { states self.new.table ≡ states self.old.table }
        ensures program { self.new.program ≡ self.old.program }
    {
        let Ok(at) = u32::try_from(self.rests.len()) else {
            return Ok(());
        };
        self.latest_rests.insert(hash, at)?;
        self.rests.push(known)?;
        Ok(())
    }

    /// The state of the object in this state after its local transitions, and what it makes next. None if they are
    /// 1,000,000 or more, or if the table of states is full. An error means out of memory.
    pub fn rest(&mut self, object: u32, state: u32) -> Result<Option<KnownRest>, AllocError>
        requires { state < length (states self.old.table) }
        ensures grows { take (length (states self.old.table)) (states self.new.table) ≡ states self.old.table }
        ensures program { self.new.program ≡ self.old.program }
        ensures is { IfOk result (λ o. IfSome o (λ k. after_local (program_of self.old.program.now) object k.steps (state_at (states self.old.table) state) ≡ Some (state_at (states self.new.table) k.to))) }
        ensures within { IfOk result (λ o. IfSome o (λ k. k.to < length (states self.new.table))) }
    {
        let hash = rest_hash(object, state);
        if let Some(known) = self.known_rest(hash, object, state) {
            return Ok(Some(known));
        }
        let Some(known) = self.compute_rest(object, state)? else {
            return Ok(None);
        };
        self.keep_rest(hash, known)?;
        Ok(Some(known))
    }
}
