//! The theorems about searches. Each is the contract of a function with an empty body.
ghost use Rattle.std.specs.Prelude.{◌≡◌, ◌≤◌, ◌++◌, ℕ, List, Option, None, Some, Bool, length, map, true, false};
ghost use Rattle.pool_syntax.specs.declared.tree.Program.{Program};
ghost use Rattle.run_types.specs.declared.types.Item.{Item};
ghost use Rattle.run_types.specs.declared.types.NameId.{NameId};
ghost use Rattle.run_types.specs.declared.types.Label.{Label};
ghost use Rattle.run_types.specs.declared.types.Label.TheVariants as L;
ghost use Rattle.pool_syntax.specs.Terms.{ProgramTree};
ghost use Rattle.pool_syntax.specs.TreeOf.{program_of};
ghost use Rattle.run_types.specs.Message.{Message};
ghost use Rattle.pool_relation.specs.Action.{Object};
ghost use Rattle.pool_relation.specs.Configuration.{Configuration, object_of, put_object};
ghost use Rattle.pool_relation.specs.Transition.{transition, run, start};
ghost use Rattle.search_laws.specs.Renamed.{Renaming, renamed_item, renamed_program, renamed_label, IsRenamed, IsNameless};
ghost use Rattle.reachability.specs.Labels.{IsAmong, labels_to_try};
ghost use Rattle.search_laws.specs.Tried.{IsTried, states_only, with_writes, state_of};
ghost use Rattle.reachability.specs.Search.{WaitsAt, IsReached, IsAtEnd, IsStuck, IsUnfinished, IsFaulty, IsIn, names_next, in_order};
ghost use Rattle.reachability.specs.Outcomes.{EndsWith, IsOneOf, all_name_none, written};
ghost use Rattle.search_laws.specs.ClosedLists.{IsClosedSearch, Settles, IsClosedAfterSettling};
ghost use Rattle.search_laws.specs.Dead.{IsDead, HasDead, CanGoOn};
ghost use Rattle.search_laws.specs.ClosedBeside.{beside, IsClosedBeside, IsReachedInOrder};
ghost use Rattle.search_laws.specs.Stubborn.{IsStubborn, IsAwaited, is_served, IsWholeForEnds};
ghost use Rattle.search_laws.specs.Births.{Brought};
ghost use Rattle.search_laws.specs.PutOff.{any, IsClosedByChoices, IsWholeByChoices};
ghost use Rattle.search_laws.specs.Caught.{IsCaught, is_caught};
ghost use Rattle.search_laws.specs.Outcomes.{Passed, IsWholeWith, IsWholeWithChoices, IsKeptEnd, EndsAlike, HasAllEnds};
ghost use Rattle.search_laws.specs.Moves.{by_moves, Rests, posted, HaveReceivers};
ghost use Rattle.search_laws.specs.Monitors.{Monitor, reads, IgnoresNames, IsReachedWriting, Watched, IsWatched, IsClosedWatched, IsWholeWatched, LeadsOnTo, CanCome, IsKeptWatched};
ghost use Rattle.search_laws.specs.Bounded.{costs, IsOfKinds, Bounded, IsWholeBounded, IsWholeAbove, ComesBack, HasLongRuns};
ghost use Rattle.search_laws.specs.TriedWatched.{IsTriedWatched};
ghost use Rattle.search_laws.specs.CanEnd.{CanEnd};
ghost use Rattle.search_laws.specs.TriedBounded.{IsTriedBounded};
ghost use Rattle.search_laws.specs.Unused.{all_free, IsOfNoNames, IsWholeAndFree};
ghost use Rattle.patterns.specs.Patterns.{Pattern, Matches, is_nullable, is_void, BeginsOne};
ghost use Rattle.search_laws.specs.PatternMonitors.{left_of};

/// A one-to-one renaming of objects keeps transitions. The renamed label is possible in the renamed configuration
/// exactly if the label is possible, and then leads to the renamed configuration after it.
pub fn names_do_not_matter()
    ensures leads { (f : Renaming) (p : ProgramTree) (c d e : Configuration) (l : Label) → IsRenamed f.to c d → transition p c l ≡ Some e
        → (g : Configuration) × (transition (renamed_program f.to p) d (renamed_label f.to l) ≡ Some g) × IsRenamed f.to e g }
    ensures none { (f : Renaming) (p : ProgramTree) (c d : Configuration) (l : Label) → IsRenamed f.to c d → transition p c l ≡ None
        → transition (renamed_program f.to p) d (renamed_label f.to l) ≡ None }
{}

/// No program that was read from a text names an object.
pub fn no_text_names_an_object()
    ensures { (p : Program) → IsNameless (program_of p) }
{}

/// If one unused name is tried for a new object and no label is possible, then no label is possible with any other
/// name.
pub fn one_name_shows_the_end()
    ensures { (p : ProgramTree) (c : Configuration) (n : ℕ) → object_of c n ≡ None
        → ((l : Label) → names_next n l ≡ true → transition p c l ≡ None) → IsAtEnd p c }
{}

/// A closed list misses nothing: if none of its configurations is stuck, unfinished or faulty, or has a dead object, no
/// run leads to such a configuration. A list is closed if it has the start and no label leaves it that names new
/// objects in order.
pub fn a_whole_list_misses_nothing()
    ensures stuck { (p : ProgramTree) (es : List (ℕ × Configuration)) (d : Configuration) → IsNameless p → IsClosedSearch p es
        → ((n : ℕ) (c : Configuration) → IsIn n c es → ¬ (IsStuck p c)) → IsReached p d → ¬ (IsStuck p d) }
    ensures unfinished { (p : ProgramTree) (es : List (ℕ × Configuration)) (d : Configuration) → IsNameless p → IsClosedSearch p es
        → ((n : ℕ) (c : Configuration) → IsIn n c es → ¬ (IsUnfinished p c)) → IsReached p d → ¬ (IsUnfinished p d) }
    ensures faulty { (p : ProgramTree) (es : List (ℕ × Configuration)) (d : Configuration) → IsNameless p → IsClosedSearch p es
        → ((n : ℕ) (c : Configuration) → IsIn n c es → ¬ (IsFaulty c)) → IsReached p d → ¬ (IsFaulty d) }
    ensures dead { (p : ProgramTree) (es : List (ℕ × Configuration)) (d : Configuration) → IsNameless p → IsClosedSearch p es
        → ((n : ℕ) (c : Configuration) → IsIn n c es → ¬ (HasDead p c)) → IsReached p d → ¬ (HasDead p d) }
{}

/// A search may follow transitions without choice in one order and keep only the configurations after them. If none of
/// those is stuck, unfinished or faulty, or has a dead object, no run leads to such a configuration. The transitions
/// without choice are local ones, writes, asynchronous sends, returns and errors.
pub fn some_transitions_need_no_choice()
    ensures stuck { (p : ProgramTree) (es : List (ℕ × Configuration)) (d : Configuration) → IsNameless p → IsClosedAfterSettling p es
        → ((n : ℕ) (c : Configuration) → IsIn n c es → ¬ (IsStuck p c)) → IsReached p d → ¬ (IsStuck p d) }
    ensures unfinished { (p : ProgramTree) (es : List (ℕ × Configuration)) (d : Configuration) → IsNameless p → IsClosedAfterSettling p es
        → ((n : ℕ) (c : Configuration) → IsIn n c es → ¬ (IsUnfinished p c)) → IsReached p d → ¬ (IsUnfinished p d) }
    ensures faulty { (p : ProgramTree) (es : List (ℕ × Configuration)) (d : Configuration) → IsNameless p → IsClosedAfterSettling p es
        → ((n : ℕ) (c : Configuration) → IsIn n c es → ¬ (IsFaulty c)) → IsReached p d → ¬ (IsFaulty d) }
    ensures dead { (p : ProgramTree) (es : List (ℕ × Configuration)) (d : Configuration) → IsNameless p → IsClosedAfterSettling p es
        → ((n : ℕ) (c : Configuration) → IsIn n c es → ¬ (HasDead p c)) → IsReached p d → ¬ (HasDead p d) }
{}

/// `labels_to_try` is complete: it contains each possible label that gives a new object the next name.
pub fn no_other_label_is_possible()
    ensures { (p : ProgramTree) (c d : Configuration) (n : ℕ) (l : Label) → names_next n l ≡ true → transition p c l ≡ Some d → IsAmong l (labels_to_try p n c) }
{}

/// A search may try the labels of one awaited object alone, where one of them leads to a later entry, or a creation alone.
/// The list of such a search puts off no label for ever. If it also has what was written, it misses no outcome.
pub fn a_tried_list_is_whole()
    ensures states { (p : ProgramTree) (es : List Passed) → IsNameless p → IsTried p states_only es → IsWholeByChoices p (map state_of es) }
    ensures outcomes { (p : ProgramTree) (es : List Passed) → IsNameless p → IsTried p with_writes es → IsWholeWithChoices p es }
{}

/// A search can tell everything that runs write until no label is possible. It keeps with each configuration what was
/// written on the way to it. It may follow transitions without choice in one order, except writes. If only one object
/// writes in the configurations that are kept, it may also follow the writes of this object. A list that is whole for
/// such a search has the end of each run, with what the run wrote, both under other names of objects. Ends that differ
/// only in names are of one kind. So each run wrote, under other names, one of the outputs at the ends in the list. If
/// these outputs name no object, it wrote exactly one of them.
pub fn each_end_wrote_one_of_these()
    ensures kept { (p : ProgramTree) (s : Option ℕ) (es : List Passed) (w : List Item) (d : Configuration) → IsNameless p → IsWholeWith p s es → EndsWith p w d → IsKeptEnd p es w d }
    ensures alike { (f : Renaming) (p : ProgramTree) (c d : Configuration) → IsNameless p → IsRenamed f.to c d → IsAtEnd p c → EndsAlike p c d }
    ensures nothing_else { (p : ProgramTree) (s : Option ℕ) (es : List Passed) (vs : List (List Item)) → IsNameless p → IsWholeWith p s es → HasAllEnds p es vs
        → (w : List Item) (d : Configuration) → EndsWith p w d → (f : Renaming) × IsOneOf (map (renamed_item f.to) w) vs }
    ensures whatever_the_names { (p : ProgramTree) (s : Option ℕ) (es : List Passed) (vs : List (List Item)) → IsNameless p → IsWholeWith p s es → HasAllEnds p es vs
        → all_name_none vs ≡ true → (w : List Item) (d : Configuration) → EndsWith p w d → IsOneOf w vs }
{}

/// A dead object stays dead and does not change in any run.
pub fn the_dead_stay_dead()
    ensures { (p : ProgramTree) (c d : Configuration) (ls : List Label) (o : ℕ) → IsDead p c o → run p c ls ≡ Some d → IsDead p d o × (object_of d o ≡ object_of c o) }
{}

/// A caught object is dead: it waits in a cycle of calls, or along calls for an object that has finished or met an
/// error. A stuck configuration has a dead object, since no label is possible.
pub fn who_is_caught_is_dead()
    ensures caught { (p : ProgramTree) (c : Configuration) (o : ℕ) → IsCaught p c o → IsDead p c o }
    ensures stuck { (p : ProgramTree) (c : Configuration) → IsStuck p c → HasDead p c }
{}

/// A walk along the calls from an object tells exactly whether it is caught.
pub fn a_walk_tells_the_caught()
    ensures told { (p : ProgramTree) (c : Configuration) (o : ℕ) → IsCaught p c o → is_caught p c o ≡ true }
    ensures true_of { (p : ProgramTree) (c : Configuration) (o : ℕ) → is_caught p c o ≡ true → IsCaught p c o }
{}

/// A closed list shows which objects are dead. If each object that waits in a configuration of the list can go on, no
/// reached configuration has a dead object, and each object that waits in one can go on. Suppose instead that no label
/// leaves the list or changes an object in it. If the object waits in a reached configuration of the list, it is dead.
pub fn a_list_tells_the_dead()
    ensures nobody { (p : ProgramTree) (es : List (ℕ × Configuration)) (d : Configuration) → IsNameless p → IsClosedAfterSettling p es
        → ((n : ℕ) (c : Configuration) (o : ℕ) → IsIn n c es → WaitsAt p c o → CanGoOn p c o) → IsReached p d → ¬ (HasDead p d) }
    ensures each_goes_on { (p : ProgramTree) (es : List (ℕ × Configuration)) (d : Configuration) (o : ℕ) → IsNameless p → IsClosedAfterSettling p es
        → ((n : ℕ) (c : Configuration) (q : ℕ) → IsIn n c es → WaitsAt p c q → CanGoOn p c q) → IsReached p d → WaitsAt p d o → CanGoOn p d o }
    ensures dead { (p : ProgramTree) (o n : ℕ) (es : List (ℕ × Configuration)) (c : Configuration) → IsNameless p → IsClosedBeside p o es → IsIn n c es
        → IsReachedInOrder p n c → WaitsAt p c o → IsDead p c o }
{}

/// A search for ends may try only the labels of a stubborn set, or a creation alone that an object is about to make. If
/// no configuration of its list is stuck or unfinished, no run leads to such a configuration. In a stubborn set one
/// label stays possible, whatever other labels come first. Each label of it that is possible after other labels could
/// also come before them.
pub fn a_choice_of_labels_shows_every_end()
    ensures stuck { (p : ProgramTree) (es : List (ℕ × Configuration)) (d : Configuration) → IsNameless p → IsWholeForEnds p es
        → ((n : ℕ) (c : Configuration) → IsIn n c es → ¬ (IsStuck p c)) → IsReached p d → ¬ (IsStuck p d) }
    ensures unfinished { (p : ProgramTree) (es : List (ℕ × Configuration)) (d : Configuration) → IsNameless p → IsWholeForEnds p es
        → ((n : ℕ) (c : Configuration) → IsIn n c es → ¬ (IsUnfinished p c)) → IsReached p d → ¬ (IsUnfinished p d) }
{}

/// The labels of an object at `answer` or `select` are a stubborn set, if one of them is possible, and if only objects
/// know its name that wait for it, have finished or have met an error. No other object can call it, send to it or learn
/// its name before one of these labels.
pub fn the_labels_of_one_are_enough()
    ensures { (p : ProgramTree) (n b : ℕ) (c : Configuration) → IsNameless p → (h : IsAwaited p n b c) → (s : IsStubborn p n c (is_served b)) × (s.one ≡ h.one) }
{}

/// A creation that an object is about to make can come first in each run, under other names. The names of the objects
/// that were there stay. If the object does not make it in the run, it is possible behind the run.
pub fn a_creation_can_come_first()
    ensures { (p : ProgramTree) (n o : ℕ) (k : NameId) (c d e : Configuration) (ls : List Label) → IsNameless p → IsReachedInOrder p n c → transition p c (L.New o n k) ≡ Some e
        → in_order n ls ≡ true → run p c ls ≡ Some d → Brought p n o k d e ls }
{}

/// A search that keeps what was written may try only the labels of a stubborn set, if they write nothing, or a creation
/// alone. The conclusions are those of `each_end_wrote_one_of_these`.
pub fn a_choice_of_labels_shows_all_that_is_written()
    ensures kept { (p : ProgramTree) (es : List Passed) (w : List Item) (d : Configuration) → IsNameless p → IsWholeWithChoices p es → EndsWith p w d → IsKeptEnd p es w d }
    ensures nothing_else { (p : ProgramTree) (es : List Passed) (vs : List (List Item)) → IsNameless p → IsWholeWithChoices p es → HasAllEnds p es vs
        → (w : List Item) (d : Configuration) → EndsWith p w d → (f : Renaming) × IsOneOf (map (renamed_item f.to) w) vs }
    ensures whatever_the_names { (p : ProgramTree) (es : List Passed) (vs : List (List Item)) → IsNameless p → IsWholeWithChoices p es → HasAllEnds p es vs
        → all_name_none vs ≡ true → (w : List Item) (d : Configuration) → EndsWith p w d → IsOneOf w vs }
{}

/// A search with stubborn sets also finds faulty configurations and dead objects, if it puts off no label for ever.
/// From each configuration of its list, labels that were tried lead to a configuration in which all labels were tried.
/// It may also try a creation alone.
/// The list then serves a search for ends too. If no configuration of it is faulty, no run leads to a faulty one. If
/// each object that waits in it can go on, no reached configuration has a dead object. If no label that was tried
/// leaves a part of it or changes an object in that part, and the object waits in a reached configuration of the part,
/// it is dead.
pub fn choices_that_lead_on_show_what_stays()
    ensures ends { (p : ProgramTree) (es : List (ℕ × Configuration)) → IsWholeByChoices p es → IsWholeForEnds p es }
    ensures faulty { (p : ProgramTree) (es : List (ℕ × Configuration)) (d : Configuration) → IsNameless p → IsWholeByChoices p es
        → ((n : ℕ) (c : Configuration) → IsIn n c es → ¬ (IsFaulty c)) → IsReached p d → ¬ (IsFaulty d) }
    ensures nobody { (p : ProgramTree) (es : List (ℕ × Configuration)) (d : Configuration) → IsNameless p → IsWholeByChoices p es
        → ((n : ℕ) (c : Configuration) (o : ℕ) → IsIn n c es → WaitsAt p c o → CanGoOn p c o) → IsReached p d → ¬ (HasDead p d) }
    ensures each_goes_on { (p : ProgramTree) (es : List (ℕ × Configuration)) (d : Configuration) (o : ℕ) → IsNameless p → IsWholeByChoices p es
        → ((n : ℕ) (c : Configuration) (q : ℕ) → IsIn n c es → WaitsAt p c q → CanGoOn p c q) → IsReached p d → WaitsAt p d o → CanGoOn p d o }
    ensures dead { (p : ProgramTree) (o n : ℕ) (es : List (ℕ × Configuration)) (c : Configuration) → IsNameless p → IsClosedByChoices p (beside o) es → IsIn n c es
        → IsReachedInOrder p n c → WaitsAt p c o → IsDead p c o }
{}

/// Each transition is made of moves of single objects. The state and the name of an object determine its state after a
/// move. After some moves of one object that need no choice, and no return, the object has a new state and has sent
/// some messages. Transitions that need no choice lead to the configuration with that state and those messages.
pub fn transitions_are_moves_of_objects()
    ensures moves { (p : ProgramTree) (c : Configuration) (l : Label) → transition p c l ≡ by_moves p c l }
    ensures by_itself { (p : ProgramTree) (o : ℕ) (c : Configuration) (x z : Object) (ms : List (ℕ × Message)) → HaveReceivers (put_object c o x) ms → Rests p o x ms z
        → Settles p (put_object c o x) (put_object (posted c o ms) o z) }
{}

/// Each run can be continued without writing anything to a configuration of a list that holds the states of a monitor,
/// with the state in which the run leaves the monitor. The list is that of a search that puts off no label for ever. So a
/// test that all states of the list pass is passed after each run, and so at each moment of a run that never ends. The
/// list has the end of each run with its state. If each configuration of the list can come to a state that is wanted, so
/// can each configuration that a run reaches. If no state of a part of the list is wanted, and no label leaves the part,
/// no run from there comes to a wanted state.
pub fn each_run_leads_on_to_the_list()
    ensures leads_on { (p : ProgramTree) (m : Monitor ℕ) (es : List (Watched ℕ)) (w : List Item) (d : Configuration) → IsNameless p → IgnoresNames ℕ m → IsWholeWatched ℕ p m es
        → IsReachedWriting p w d → LeadsOnTo ℕ p m es (reads ℕ m m.first w) d }
    ensures states { (p : ProgramTree) (m : Monitor ℕ) (es : List (Watched ℕ)) (test : ℕ → Bool) (w : List Item) (d : Configuration) → IsNameless p → IgnoresNames ℕ m → IsWholeWatched ℕ p m es
        → ((n q : ℕ) (c : Configuration) → IsWatched ℕ n q c es → test q ≡ true) → IsReachedWriting p w d → test (reads ℕ m m.first w) ≡ true }
    ensures ends { (p : ProgramTree) (m : Monitor ℕ) (es : List (Watched ℕ)) (w : List Item) (d : Configuration) → IsNameless p → IgnoresNames ℕ m → IsWholeWatched ℕ p m es
        → IsReachedWriting p w d → IsAtEnd p d → IsKeptWatched ℕ es (reads ℕ m m.first w) d }
    ensures can { (p : ProgramTree) (m : Monitor ℕ) (es : List (Watched ℕ)) (wanted : ℕ → Bool) (w : List Item) (d : Configuration) → IsNameless p → IgnoresNames ℕ m → IsWholeWatched ℕ p m es
        → ((n q : ℕ) (c : Configuration) → IsWatched ℕ n q c es → CanCome ℕ p m wanted q c) → IsReachedWriting p w d → CanCome ℕ p m wanted (reads ℕ m m.first w) d }
    ensures never { (p : ProgramTree) (m : Monitor ℕ) (es : List (Watched ℕ)) (wanted : ℕ → Bool) (n q : ℕ) (c : Configuration) → IsNameless p → IgnoresNames ℕ m → IsClosedWatched ℕ p m es
        → ((n q : ℕ) (c : Configuration) → IsWatched ℕ n q c es → wanted q ≡ false) → IsWatched ℕ n q c es → IsReachedInOrder p n c → ¬ (CanCome ℕ p m wanted q c) }
{}

/// If each label that was tried leads to lower bounds, no run has more transitions than the bound at the start, and none
/// costs more. The labels of a stubborn set are enough, whatever is put off.
pub fn no_run_exceeds_the_bounds_of_its_list()
    ensures length { (p : ProgramTree) (cost : Label → ℕ) (es : List Bounded) (k v root : ℕ) (c d : Configuration) (ls : List Label) → IsNameless p → IsOfKinds cost → IsWholeBounded p cost es k v
        → start p root ≡ Some c → run p c ls ≡ Some d → length ls ≤ k }
    ensures cost { (p : ProgramTree) (cost : Label → ℕ) (es : List Bounded) (k v root : ℕ) (c d : Configuration) (ls : List Label) → IsNameless p → IsOfKinds cost → IsWholeBounded p cost es k v
        → start p root ≡ Some c → run p c ls ≡ Some d → costs cost ls ≤ v }
    ensures least { (p : ProgramTree) (cost : Label → ℕ) (es : List (Watched ℕ)) (v root : ℕ) (c d : Configuration) (ls : List Label) → IsNameless p → IsOfKinds cost → IsWholeAbove p cost es v
        → start p root ≡ Some c → run p c ls ≡ Some d → IsAtEnd p d → v ≤ costs cost ls }
    ensures endless { (p : ProgramTree) (front loop : List Label) → ComesBack p front loop → HasLongRuns p }
{}

/// If nothing that is left of a pattern in a list is void, each run has written at each moment the beginning of a list of
/// items that the pattern matches. So has a run that never ends. If what is left at each end is nullable, each run that
/// ends wrote a whole one. If no configuration of the list is faulty, no run meets an error. If from each configuration
/// something nullable can come, each run can be brought to a whole one.
pub fn a_list_shows_that_all_runs_keep_to_a_pattern()
    ensures begins { (p : ProgramTree) (r : Pattern) (es : List (Watched Pattern)) (w : List Item) (d : Configuration) → IsNameless p → IsWholeWatched Pattern p (left_of r) es
        → ((n : ℕ) (q : Pattern) (c : Configuration) → IsWatched Pattern n q c es → is_void q ≡ false) → IsReachedWriting p w d → BeginsOne r w }
    ensures ends { (p : ProgramTree) (r : Pattern) (es : List (Watched Pattern)) (w : List Item) (d : Configuration) → IsNameless p → IsWholeWatched Pattern p (left_of r) es
        → ((n : ℕ) (q : Pattern) (c : Configuration) → IsWatched Pattern n q c es → IsAtEnd p c → is_nullable q ≡ true) → IsReachedWriting p w d → IsAtEnd p d → Matches r w }
    ensures no_error { (p : ProgramTree) (r : Pattern) (es : List (Watched Pattern)) (w : List Item) (d : Configuration) → IsNameless p → IsWholeWatched Pattern p (left_of r) es
        → ((n : ℕ) (q : Pattern) (c : Configuration) → IsWatched Pattern n q c es → ¬ (IsFaulty c)) → IsReachedWriting p w d → ¬ (IsFaulty d) }
    ensures can { (p : ProgramTree) (r : Pattern) (es : List (Watched Pattern)) (w : List Item) (d : Configuration) → IsNameless p → IsWholeWatched Pattern p (left_of r) es
        → ((n : ℕ) (q : Pattern) (c : Configuration) → IsWatched Pattern n q c es → CanCome Pattern p (left_of r) is_nullable q c) → IsReachedWriting p w d
        → (last : Configuration) × (ls : List Label) × (run p d ls ≡ Some last) × Matches r (w ++ written ls) }
{}

/// A search that keeps what is left of a pattern may try the labels of one awaited object alone, where one of them leads
/// to a later entry. Its list then is whole.
pub fn a_tried_list_with_a_pattern_is_whole()
    ensures { (p : ProgramTree) (r : Pattern) (es : List (Watched Pattern)) → IsNameless p → IsTriedWatched Pattern p (left_of r) es → IsWholeWatched Pattern p (left_of r) es }
{}

/// If all labels that a search has tried or followed are free, and it puts off no label for ever, each label of each run
/// is free. So what no such label does, no run does.
pub fn what_no_tried_label_does_no_run_does()
    ensures { (p : ProgramTree) (free : Label → Bool) (es : List (ℕ × Configuration)) (root : ℕ) (c d : Configuration) (ls : List Label) → IsNameless p → IsOfNoNames free → IsWholeAndFree p free es
        → start p root ≡ Some c → run p c ls ≡ Some d → all_free free ls ≡ true }
{}

/// If from each configuration of a list that puts off no label for ever some run comes to an end, each run can still be
/// brought to an end. If no configuration of a part is an end, and no label that was tried leaves the part, no run from
/// there ends.
pub fn a_list_tells_from_where_runs_can_end()
    ensures can { (p : ProgramTree) (es : List (ℕ × Configuration)) (d : Configuration) → IsNameless p → IsWholeByChoices p es
        → ((n : ℕ) (c : Configuration) → IsIn n c es → CanEnd p c) → IsReached p d → CanEnd p d }
    ensures never { (p : ProgramTree) (es : List (ℕ × Configuration)) (n : ℕ) (c : Configuration) → IsNameless p → IsClosedByChoices p any es
        → ((n : ℕ) (c : Configuration) → IsIn n c es → ¬ (IsAtEnd p c)) → IsIn n c es → IsReachedInOrder p n c → ¬ (CanEnd p c) }
{}

/// A walk over the entries of a search that finds lower bounds after each label that was tried, all or those of one awaited
/// object, has a whole list with bounds.
pub fn a_tried_list_with_bounds_is_whole()
    ensures { (p : ProgramTree) (cost : Label → ℕ) (es : List Bounded) (k v : ℕ) → IsNameless p → IsTriedBounded p cost es k v → IsWholeBounded p cost es k v }
{}
