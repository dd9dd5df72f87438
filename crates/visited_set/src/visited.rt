//! The visited set: configurations of one program.
ghost use Rattle.std.specs.Prelude.{◌≡◌};
ghost use Rattle.std.specs.List.{All};
ghost use Rattle.object_moves.specs.Tables.{known_states, table_program};
ghost use Rattle.visited_set.specs.Numbers.{EntryInvariant, IsNamed};
ghost use Rattle.visited_set.specs.WritingsOf.{lists_of};

use crate::awaited::{has_error, is_only_awaited};
use crate::equality::mark;
use crate::hints::Hints;
use crate::keeps::Keeps;
use crate::kept_rows::Rows;
use crate::labelling::push_to_try;
use crate::made::{numbers_of, queues_of};
use crate::numbered::{Numbered, Queue};
use crate::restored::{messages_at, objects_at};
use crate::waiters::Waiters;
use crate::writings::Writings;
use flat_lists::unpack;
use mail_numbers::MailLists;
use message_queue::MessageQueue;
use object_moves::{Lead, MoveTable};
use pool_semantics::{Plain, State};
use pool_syntax::Program;
use run_types::{Item, Label};
use std::alloc::{AllocError, Global};
use std::collections::BTreeMap;
use stepper_objects::object_state::ObjectState;

/// The number of a configuration that was already in the set, or was added.
#[derive(Clone, Copy)]
pub enum Entry {
    Seen(u32),
    Added(u32),
}

/// Where a label leads, as far as the table of moves tells.
#[derive(Clone, Copy)]
pub enum Found {
    /// It tells nothing.
    Unknown,
    /// The label is not possible.
    Impossible,
    /// A configuration that is not in the set and was not added.
    Absent,
    /// This configuration.
    At(Entry),
}

/// Configurations of one program, each with its next free name and what was written, as a row of numbers: of the states
/// of its objects, of its lists of messages, and of the list of what was written. At most 2^32 configurations, 2^32 - 1
/// object states and 2^32 lists of messages fit. All rows together have fewer than 2^32 units of 16 bits. A
/// configuration can be in the set twice after a collision of the hashes of messages or of object states, which then
/// have two numbers.
#[derive(Drop)]
pub struct VisitedSet<'a> {
    alloc: Global,
    moves: MoveTable<'a>,
    writings: Writings,
    mails: MailLists,
    rows: Rows,
    ghost kept: { All (EntryInvariant (table_program moves) (known_states moves) mails) rows },
    ghost named: { All (IsNamed (lists_of writings)) rows },
}

impl<'a> VisitedSet<'a> {
    ghost use Rattle.std.specs.Prelude.{◌<◌, ◌++◌, List, [], ◌∷◌, ℕ, Ok, None, Some, IfOk, IfSome, get_or, OnOk, OnErr, IsTrue, length, map, slice_get, true, false};
    ghost use Rattle.std.specs.Ordering.{nat_cmp};
    ghost use Rattle.std.specs.FinMap.Entries.{is_sorted};
    ghost use Rattle.stepper_objects.specs.ObjectStates.{things};
    ghost use Rattle.pool_syntax.specs.TreeOf.{program_of};
    ghost use Rattle.pool_semantics.specs.PlainOf.{configuration_of, program_tree, is_spent};
    ghost use Rattle.reachability.specs.Search.{IsFaulty, IsInOrder};
    ghost use Rattle.reachability.specs.Labels.{labels_to_try};
    ghost use Rattle.run_types.specs.declared.types.Label.{Label as OneLabel};
    ghost use Rattle.search_laws.specs.Stubborn.{IsAwaited, is_served};
    ghost use Rattle.object_moves.specs.Rows.{objects_from};
    ghost use Rattle.visited_set.specs.Numbers.{AreListed, AreNamedFrom, passed, queue_messages};
    ghost use Rattle.visited_set.specs.Rows.{row_of, stored_row};
    ghost use Rattle.run_types.specs.Tables.{pair_cmp};
    ghost use Rattle.pool_semantics.specs.Mails.{posts};
    ghost use Rattle.pool_relation.specs.Configuration.{Configuration};
    ghost use Rattle.pool_relation.specs.Transition.{transition};
    ghost use Rattle.visited_set.specs.Courses.{course_of};
    ghost use Rattle.visited_set.specs.LedBy.{IsLedBy};
    ghost use Rattle.visited_set.specs.WaiterLists.{HasWaiter, IsOpen};
    ghost use Rattle.visited_set.specs.declared.waiters.Waiter.{Waiter as OneWaiter};
    ghost use Rattle.reachability.specs.Search.{WaitsAt};
    ghost use Rattle.run_types.specs.Tables.{Each};
    ghost use Rattle.visited_set.specs.VisitedConfigurations.{IsFull, entry, kept_list, kept_lists, kept_program};

    /// An empty set for this program.
    pub fn empty(alloc: Global, program: &'a Program) -> VisitedSet<'a>
        ensures list { kept_list result ≡ [] }
        ensures lists { kept_lists result ≡ [] ∷ [] }
        ensures program { kept_program result ≡ program_of program.now }
    {
        VisitedSet {
            alloc,
            moves: MoveTable::make(alloc, program),
            writings: Writings::make(alloc),
            mails: MailLists::make(alloc),
            rows: Rows::make(alloc),
        }
    }

    /// The allocator of its memory.
    pub fn alloc(&self) -> Global {
        self.alloc
    }

    /// The number of configurations.
    pub fn len(&self) -> usize
        ensures { result ≡ length (kept_list self.now) }
    {
        self.rows.len()
    }

    /// The next free name of the configuration at this index.
    pub fn next_name(&self, at: usize) -> u32
        requires { at < length (kept_list self.now) }
        ensures { IfSome (slice_get (kept_list self.now) at) (λ e. result ≡ e.next) }
    {
        self.rows.get(at).next
    }

    /// The number of what was written before the configuration at this index.
    pub fn written(&self, at: usize) -> u32
        requires { at < length (kept_list self.now) }
        ensures list { IfSome (slice_get (kept_list self.now) at) (λ e. get_or (kept_lists self.now) result [] ≡ e.items) }
        ensures within { result < length (kept_lists self.now) }
    {
        self.rows.get(at).written
    }

    /// What was written before the configuration at this index. An error means out of memory.
    pub fn items(&self, at: usize) -> Result<Vec<Item>, AllocError>
        requires { at < length (kept_list self.now) }
        ensures { IfOk result (λ v. IfSome (slice_get (kept_list self.now) at) (λ e. v.items ≡ e.items)) }
    {
        self.writings.items(self.alloc, self.rows.get(at).written)
    }

    /// The number of a list with the item after it. The list is added unless it was found. None if there are 2^32
    /// lists. An error means out of memory.
    pub fn write(&mut self, before: u32, item: Item) -> Result<Option<u32>, AllocError>
        requires { before < length (kept_lists self.old) }
        ensures list { kept_list self.new ≡ kept_list self.old }
        ensures program { kept_program self.new ≡ kept_program self.old }
        ensures number { IfOk result (λ o. IfSome o (λ n. (get_or (kept_lists self.new) n [] ≡ get_or (kept_lists self.old) before [] ++ item ∷ []) × (n < length (kept_lists self.new)))) }
    {
        self.writings.write(before, item)
    }

    /// The configuration at this index. An error means out of memory.
    pub fn configuration(&self, at: usize) -> Result<Plain<'a>, AllocError>
        requires { at < length (kept_list self.now) }
        ensures configuration { IfOk result (λ s. IfSome (slice_get (kept_list self.now) at) (λ e. configuration_of s ≡ e.configuration)) }
        ensures program { IfOk result (λ s. program_tree s ≡ kept_program self.now) }
        ensures fresh { IfOk result (λ s. is_spent s ≡ false) }
    {
        let entry = self.rows.get(at);
        let numbers = unpack(self.alloc, entry.objects)?;
        let objects = objects_at(self.alloc, &self.moves, numbers.as_slice())?;
        let messages = messages_at(self.alloc, &self.mails, entry.queues)?;
        Ok(Plain::of(State {
            alloc: self.alloc,
            program: self.moves.program(),
            objects,
            messages,
        }))
    }

    /// The index of this configuration, which has this hash. None if it is not found.
    fn seen(&self, mark: u64, found: &Numbered<'_>) -> Option<u32>
        ensures { IfSome result (λ i. slice_get (kept_list self.now) i ≡ Some (passed (known_states self.now.moves) self.now.mails (kept_lists self.now) (row_of found.now))) }
    {
        self.rows.find(mark, found)
    }

    /// Adds a configuration, and returns its index. None if the
    /// set has 2^32 configurations. An error means out of memory.
    fn add(&mut self, mark: u64, found: &Numbered<'_>) -> Result<Option<u32>, AllocError>
        requires kept { EntryInvariant (kept_program self.old) (known_states self.old.moves) self.old.mails (row_of found.now) }
        requires named { IsNamed (kept_lists self.old) (row_of found.now) }
        ensures added { IfOk result (λ o. IfSome o (λ i. (kept_list self.new ≡ kept_list self.old ++ passed (known_states self.old.moves) self.old.mails (kept_lists self.old) (row_of found.now) ∷ []) × (i ≡ length (kept_list self.old)))) }
        ensures none { result ≡ Ok None → kept_list self.new ≡ kept_list self.old }
        ensures full { result ≡ Ok None → IsFull self.new }
        ensures error { OnErr result (kept_list self.new ≡ kept_list self.old) }
        ensures program { kept_program self.new ≡ kept_program self.old }
        ensures lists { kept_lists self.new ≡ kept_lists self.old }
    {
        let Ok(at) = u32::try_from(self.rows.len()) else {
            return Ok(None);
        };
        self.rows.push(mark, found)?;
        Ok(Some(at))
    }

    /// The state numbers of these objects. New states are added to the table. None if
    /// the table is full, or the names are not 0, 1, 2, .. An error means out of memory.
    fn numbers(
        &mut self,
        objects: &BTreeMap<u32, ObjectState<'a>>,
    ) -> Result<Option<Vec<u32>>, AllocError>
        ensures list { kept_list self.new ≡ kept_list self.old }
        ensures lists { kept_lists self.new ≡ kept_lists self.old }
        ensures program { kept_program self.new ≡ kept_program self.old }
        ensures within { IfOk result (λ o. IfSome o (λ v. All (λ n. n < length (known_states self.new.moves)) v.items)) }
        ensures objects { IfOk result (λ o. IfSome o (λ v. objects_from 0 (known_states self.new.moves) v.items ≡ things objects.now.entries)) }
        ensures sorted { IfOk result (λ o. IsTrue (is_sorted nat_cmp (things objects.now.entries))) }
        ensures full { result ≡ Ok None → AreNamedFrom 0 (things objects.now.entries) → IsFull self.new }
        ensures mails { self.new.mails ≡ self.old.mails }
    {
        numbers_of(self.alloc, &mut self.moves, objects)
    }

    /// The queues of these messages. New lists of messages are added to the table. None if the table is full. An error
    /// means out of memory, or an error of `MailLists::number_of`.
    fn queues(
        &mut self,
        messages: &BTreeMap<(u32, u32), MessageQueue>,
    ) -> Result<Option<Vec<Queue>>, AllocError>
        ensures list { kept_list self.new ≡ kept_list self.old }
        ensures lists { kept_lists self.new ≡ kept_lists self.old }
        ensures program { kept_program self.new ≡ kept_program self.old }
        ensures states { known_states self.new.moves ≡ known_states self.old.moves }
        ensures listed { IfOk result (λ o. IfSome o (λ qs. AreListed self.new.mails qs.items)) }
        ensures queues { IfOk result (λ o. IfSome o (λ qs. map (queue_messages self.new.mails) qs.items ≡ posts messages.now.entries)) }
        ensures sorted { IfOk result (λ o. IsTrue (is_sorted pair_cmp (posts messages.now.entries))) }
        ensures full { result ≡ Ok None → IsFull self.new }
    {
        queues_of(self.alloc, &mut self.mails, messages)
    }

    /// The index of a configuration, with what was written. Requires that it is one of the set's program, and the
    /// number of a list. None if it is not found: it is not in the set, or its hash was that of another. An error means
    /// out of memory.
    pub fn find(
        &mut self,
        plain: &Plain<'a>,
        next: u32,
        written: u32,
    ) -> Result<Option<u32>, AllocError>
        requires fresh { is_spent plain.now ≡ false }
        requires program { program_tree plain.now ≡ kept_program self.old }
        requires named { written < length (kept_lists self.old) }
        ensures list { kept_list self.new ≡ kept_list self.old }
        ensures lists { kept_lists self.new ≡ kept_lists self.old }
        ensures program { kept_program self.new ≡ kept_program self.old }
        ensures found { IfOk result (λ o. IfSome o (λ i. slice_get (kept_list self.old) i ≡ Some (entry next (get_or (kept_lists self.old) written []) (configuration_of plain.now)))) }
    {
        let state = plain.state();
        let Some(queues) = self.queues(&state.messages)? else {
            return Ok(None);
        };
        let Some(objects) = self.numbers(&state.objects)? else {
            return Ok(None);
        };
        let found = Numbered {
            next,
            written,
            objects: objects.as_slice(),
            queues: queues.as_slice(),
        };
        let mark = mark(&found);
        match self.seen(mark, &found) {
            Some(at) => Ok(Some(at)),
            None => Ok(None),
        }
    }

    /// Looks a configuration up, with what was written, and adds it if it was not found. Requires that it is one of the
    /// set's program, and the number of a list. None if the set, the table of object states or that of lists of
    /// messages is full, or if the objects are not named 0, 1, 2, .. An error means out of memory, or that no number of
    /// 32 bits is left for a message or for an item of a list.
    pub fn keep(
        &mut self,
        plain: &Plain<'a>,
        next: u32,
        written: u32,
    ) -> Result<Option<Entry>, AllocError>
        requires fresh { is_spent plain.now ≡ false }
        requires program { program_tree plain.now ≡ kept_program self.old }
        requires named { written < length (kept_lists self.old) }
        ensures seen { (i : ℕ) → result ≡ Ok (Some (Entry.Seen i)) → (kept_list self.new ≡ kept_list self.old) × (slice_get (kept_list self.old) i ≡ Some (entry next (get_or (kept_lists self.old) written []) (configuration_of plain.now))) }
        ensures added { (i : ℕ) → result ≡ Ok (Some (Entry.Added i)) → (kept_list self.new ≡ kept_list self.old ++ entry next (get_or (kept_lists self.old) written []) (configuration_of plain.now) ∷ []) × (i ≡ length (kept_list self.old)) }
        ensures none { result ≡ Ok None → kept_list self.new ≡ kept_list self.old }
        ensures full { result ≡ Ok None → AreNamedFrom 0 (configuration_of plain.now).objects → IsFull self.new }
        ensures error { OnErr result (kept_list self.new ≡ kept_list self.old) }
        ensures program { kept_program self.new ≡ kept_program self.old }
        ensures lists { kept_lists self.new ≡ kept_lists self.old }
        ensures in_order { OnOk result (IsInOrder (configuration_of plain.now)) }
    {
        let state = plain.state();
        let Some(queues) = self.queues(&state.messages)? else {
            return Ok(None);
        };
        let Some(objects) = self.numbers(&state.objects)? else {
            return Ok(None);
        };
        let found = Numbered {
            next,
            written,
            objects: objects.as_slice(),
            queues: queues.as_slice(),
        };
        let mark = mark(&found);
        match self.seen(mark, &found) {
            Some(at) => Ok(Some(Entry::Seen(at))),
            None => match self.add(mark, &found)? {
                Some(at) => Ok(Some(Entry::Added(at))),
                None => Ok(None),
            },
        }
    }

    /// Adds the labels to try of the configuration at this index. An error means out of memory.
    pub fn labels(&self, at: usize, into: &mut Vec<Label>) -> Result<(), AllocError>
        requires { at < length (kept_list self.now) }
        ensures { IfSome (slice_get (kept_list self.now) at) (λ e. OnOk result (into.new.items ≡ into.old.items ++ labels_to_try (kept_program self.now) e.next e.configuration)) }
    {
        let entry = self.rows.get(at);
        let numbers = unpack(self.alloc, entry.objects)?;
        push_to_try(
            into,
            &self.moves,
            &self.mails,
            &entry.with(numbers.as_slice()),
        )
    }

    /// Whether only objects that wait for this object know its name, in the configuration at this index. If
    /// memory runs out, nothing is said.
    pub fn is_only_awaited(&self, at: usize, object: u32) -> bool
        requires { at < length (kept_list self.now) }
        ensures { result ≡ true → IfSome (slice_get (kept_list self.now) at) (λ e. IsInOrder e.configuration
            → (l : OneLabel) (d : Configuration) → is_served object l ≡ true → transition (kept_program self.now) e.configuration l ≡ Some d
            → IsAwaited (kept_program self.now) e.next object e.configuration) }
    {
        let entry = self.rows.get(at);
        match unpack(self.alloc, entry.objects) {
            Ok(numbers) => is_only_awaited(
                &self.moves,
                &self.mails,
                &entry.with(numbers.as_slice()),
                object,
            ),
            Err(_) => false,
        }
    }

    /// The names below 64, as bits, that some object of the configuration at this index knows which neither has the
    /// name nor awaits it. Nothing is claimed of them. An error means out of memory.
    pub fn known(&self, at: usize, hints: &mut Hints) -> Result<u64, AllocError>
        requires { at < length (kept_list self.now) }
    {
        let entry = self.rows.get(at);
        let numbers = unpack(self.alloc, entry.objects)?;
        hints.known(&self.moves, &entry.with(numbers.as_slice()))
    }

    /// Whether an object has met an error in the configuration at this index. If memory runs out, it is not ruled out.
    pub fn has_error(&self, at: usize) -> bool
        requires { at < length (kept_list self.now) }
        ensures { result ≡ false → IfSome (slice_get (kept_list self.now) at) (λ e. ¬ (IsFaulty e.configuration)) }
    {
        match unpack(self.alloc, self.rows.get(at).objects) {
            Ok(numbers) => has_error(&self.moves, numbers.as_slice()),
            Err(_) => true,
        }
    }

    /// Adds the objects that wait in the configuration at this index, as those of the next entry. `false` if no name of
    /// 32 bits is left. An error means out of memory.
    pub fn add_waiters(
        &self,
        at: usize,
        entry: u32,
        waiters: &mut Waiters,
    ) -> Result<bool, AllocError>
        requires { at < length (kept_list self.now) }
        ensures grown { OnOk result ((added : List OneWaiter) × (waiters.new.list.items ≡ waiters.old.list.items ++ added)) }
        ensures none_noted { OnOk result (Each IsOpen waiters.old.list.items → Each IsOpen waiters.new.list.items) }
        ensures all { result ≡ Ok true → IfSome (slice_get (kept_list self.now) at) (λ e. (o : ℕ) → WaitsAt (kept_program self.now) e.configuration o → HasWaiter false entry o waiters.new.list.items) }
    {
        let numbers = unpack(self.alloc, self.rows.get(at).objects)?;
        waiters.add(entry, &self.moves, numbers.as_slice())
    }

    /// Looks up where the label leads from the configuration at this index, after transitions that are followed. If
    /// that configuration, with this next name and this number of what was written, is not found, it is added if
    /// `adds`. `moved` becomes a list of objects that these transitions change. `Absent` if it is not found and not
    /// `adds`. `Unknown` where `MoveTable::lead` cannot tell, and if a bound is met. An error means out of memory.
    pub fn lead(
        &mut self,
        at: usize,
        label: &Label,
        next: u32,
        written: u32,
        keeps: Keeps,
        adds: bool,
        moved: &mut Vec<u32>,
    ) -> Result<Found, AllocError>
        requires there { at < length (kept_list self.old) }
        requires named { written < length (kept_lists self.old) }
        ensures program { kept_program self.new ≡ kept_program self.old }
        ensures lists { kept_lists self.new ≡ kept_lists self.old }
        ensures only { adds ≡ false → kept_list self.new ≡ kept_list self.old }
        ensures absent { result ≡ Ok Found.Absent → kept_list self.new ≡ kept_list self.old }
        ensures unknown { result ≡ Ok Found.Unknown → kept_list self.new ≡ kept_list self.old }
        ensures impossible { result ≡ Ok Found.Impossible
            → (kept_list self.new ≡ kept_list self.old) × IfSome (slice_get (kept_list self.old) at) (λ e. transition (kept_program self.old) e.configuration label.now ≡ None) }
        ensures seen { (i : ℕ) → result ≡ Ok (Found.At (Entry.Seen i))
            → (kept_list self.new ≡ kept_list self.old) × IfSome (slice_get (kept_list self.old) at) (λ e. (to : Configuration) × IsLedBy (kept_program self.old) (course_of keeps) e.configuration label.now to moved.new.items
            × (slice_get (kept_list self.old) i ≡ Some (entry next (get_or (kept_lists self.old) written []) to))) }
        ensures added { (i : ℕ) → result ≡ Ok (Found.At (Entry.Added i))
            → IfSome (slice_get (kept_list self.old) at) (λ e. (to : Configuration) × IsLedBy (kept_program self.old) (course_of keeps) e.configuration label.now to moved.new.items × IsInOrder to
            × (kept_list self.new ≡ kept_list self.old ++ entry next (get_or (kept_lists self.old) written []) to ∷ []) × (i ≡ length (kept_list self.old))) }
    {
        let from = self.rows.get(at);
        let mut objects = unpack(self.alloc, from.objects)?;
        let mut messages = messages_at(self.alloc, &self.mails, from.queues)?;
        match self
            .moves
            .lead(&mut objects, &mut messages, moved, label, keeps.silent())
        {
            Ok(Lead::Unknown) => return Ok(Found::Unknown),
            Ok(Lead::Impossible) => return Ok(Found::Impossible),
            Ok(Lead::Made) => {}
            Err(_) => return Err(AllocError),
        }
        let Some(queues) = self.queues(&messages)? else {
            return Ok(Found::Unknown);
        };
        let found = Numbered {
            next,
            written,
            objects: objects.as_slice(),
            queues: queues.as_slice(),
        };
        let mark = mark(&found);
        match self.seen(mark, &found) {
            Some(at) => Ok(Found::At(Entry::Seen(at))),
            None => {
                if !adds {
                    return Ok(Found::Absent);
                }
                match self.add(mark, &found)? {
                    Some(at) => Ok(Found::At(Entry::Added(at))),
                    None => Ok(Found::Unknown),
                }
            }
        }
    }
}
