//! Theorems that carry the results of a search over to all records.
//! Each is the contract of a function with an empty body.
ghost use Rattle.std.specs.Prelude.{◌≡◌, ℕ, List, [], Option, map, true};
ghost use Rattle.pool_syntax.specs.Terms.{ProgramTree};
ghost use Rattle.run_types.specs.declared.types.Event.{Event};
ghost use Rattle.run_types.specs.declared.types.Item.{Item};
ghost use Rattle.run_types.specs.declared.types.Placement.{Placement};
ghost use Rattle.pool_relation.specs.Configuration.{Configuration};
ghost use Rattle.mesh_semantics.specs.Record.{labels, ends_quiet};
ghost use Rattle.mesh_semantics.specs.RecordOf.{record_of, record_on_wires};
ghost use Rattle.mesh_semantics.specs.Cycles.{cycles};
ghost use Rattle.mesh_of_terms.specs.Terms.{terms, plain};
ghost use Rattle.reachability.specs.Search.{IsReached, IsStuck, IsUnfinished, IsFaulty, IsIn};
ghost use Rattle.search_laws.specs.ClosedLists.{IsClosedAfterSettling};
ghost use Rattle.reachability.specs.Outcomes.{written, EndsWith, IsOneOf, all_name_none};
ghost use Rattle.search_laws.specs.Renamed.{Renaming, renamed_item, IsNameless};
ghost use Rattle.search_laws.specs.Outcomes.{Passed, IsWholeWith, HasAllEnds};
ghost use Rattle.search_laws.specs.Dead.{HasDead};
ghost use Rattle.adequacy.specs.Ends.{IsPlaced, EndsInACall, EndsUnfinished, ShowsAnError, ComesToDead};

/// If no run leads to a stuck configuration, no record ends quiet with an object in a call.
/// If no run leads to an unfinished one, no quiet record leaves an
/// object in a call, at `answer` or `select`, or an untaken message.
/// If no run leads to a faulty one, no record shows a run-time error.
/// This holds for each schedule, and each placement that fits the program.
pub fn what_no_run_leads_to_no_record_shows()
    ensures stuck { (p : ProgramTree) (l : Placement) (q : ℕ) (es : List Event) → IsPlaced p l → ((d : Configuration) → IsReached p d → ¬ (IsStuck p d))
        → ¬ (EndsInACall p (record_of (terms p) l q es)) }
    ensures stuck_on_wires { (p : ProgramTree) (l : Placement) (q : ℕ) (es : List Event) → IsPlaced p l → ((d : Configuration) → IsReached p d → ¬ (IsStuck p d))
        → ¬ (EndsInACall p (record_on_wires (terms p) l q es)) }
    ensures unfinished { (p : ProgramTree) (l : Placement) (q : ℕ) (es : List Event) → IsPlaced p l → ((d : Configuration) → IsReached p d → ¬ (IsUnfinished p d))
        → ¬ (EndsUnfinished p (record_of (terms p) l q es)) }
    ensures unfinished_on_wires { (p : ProgramTree) (l : Placement) (q : ℕ) (es : List Event) → IsPlaced p l → ((d : Configuration) → IsReached p d → ¬ (IsUnfinished p d))
        → ¬ (EndsUnfinished p (record_on_wires (terms p) l q es)) }
    ensures faulty { (p : ProgramTree) (l : Placement) (q : ℕ) (es : List Event) → IsPlaced p l → ((d : Configuration) → IsReached p d → ¬ (IsFaulty d))
        → ¬ (ShowsAnError (record_of (terms p) l q es)) }
    ensures faulty_on_wires { (p : ProgramTree) (l : Placement) (q : ℕ) (es : List Event) → IsPlaced p l → ((d : Configuration) → IsReached p d → ¬ (IsFaulty d))
        → ¬ (ShowsAnError (record_on_wires (terms p) l q es)) }
{}

/// If the list of a complete search has no stuck configuration, no record ends quiet with an object in a call.
/// The same holds for unfinished and faulty configurations, as in `what_no_run_leads_to_no_record_shows`.
pub fn a_whole_list_speaks_of_every_record()
    ensures stuck { (p : ProgramTree) (list : List (ℕ × Configuration)) (l : Placement) (q : ℕ) (es : List Event) → IsPlaced p l → IsNameless p → IsClosedAfterSettling p list
        → ((n : ℕ) (d : Configuration) → IsIn n d list → ¬ (IsStuck p d)) → ¬ (EndsInACall p (record_of (terms p) l q es)) }
    ensures stuck_on_wires { (p : ProgramTree) (list : List (ℕ × Configuration)) (l : Placement) (q : ℕ) (es : List Event) → IsPlaced p l → IsNameless p → IsClosedAfterSettling p list
        → ((n : ℕ) (d : Configuration) → IsIn n d list → ¬ (IsStuck p d)) → ¬ (EndsInACall p (record_on_wires (terms p) l q es)) }
    ensures unfinished { (p : ProgramTree) (list : List (ℕ × Configuration)) (l : Placement) (q : ℕ) (es : List Event) → IsPlaced p l → IsNameless p → IsClosedAfterSettling p list
        → ((n : ℕ) (d : Configuration) → IsIn n d list → ¬ (IsUnfinished p d)) → ¬ (EndsUnfinished p (record_of (terms p) l q es)) }
    ensures unfinished_on_wires { (p : ProgramTree) (list : List (ℕ × Configuration)) (l : Placement) (q : ℕ) (es : List Event) → IsPlaced p l → IsNameless p → IsClosedAfterSettling p list
        → ((n : ℕ) (d : Configuration) → IsIn n d list → ¬ (IsUnfinished p d)) → ¬ (EndsUnfinished p (record_on_wires (terms p) l q es)) }
    ensures faulty { (p : ProgramTree) (list : List (ℕ × Configuration)) (l : Placement) (q : ℕ) (es : List Event) → IsPlaced p l → IsNameless p → IsClosedAfterSettling p list
        → ((n : ℕ) (d : Configuration) → IsIn n d list → ¬ (IsFaulty d)) → ¬ (ShowsAnError (record_of (terms p) l q es)) }
    ensures faulty_on_wires { (p : ProgramTree) (list : List (ℕ × Configuration)) (l : Placement) (q : ℕ) (es : List Event) → IsPlaced p l → IsNameless p → IsClosedAfterSettling p list
        → ((n : ℕ) (d : Configuration) → IsIn n d list → ¬ (IsFaulty d)) → ¬ (ShowsAnError (record_on_wires (terms p) l q es)) }
{}

/// A record that ends quiet writes what some run writes until no label is possible. Suppose that the list of a complete
/// search holds what was written on the way to each configuration. Then each record that ends quiet writes, under other
/// names of objects, one of the outputs at the ends in the list. If these outputs name no object, it writes exactly one
/// of them. This holds for each schedule, and each placement that fits the program.
pub fn a_quiet_record_wrote_one_of_these()
    ensures is_an_end { (p : ProgramTree) (l : Placement) (q : ℕ) (es : List Event) → IsPlaced p l → ends_quiet (record_of (terms p) l q es).lines ≡ true
        → EndsWith p (written (labels (record_of (terms p) l q es).lines)) (plain (record_of (terms p) l q es).last) }
    ensures is_an_end_on_wires { (p : ProgramTree) (l : Placement) (q : ℕ) (es : List Event) → IsPlaced p l → ends_quiet (record_on_wires (terms p) l q es).lines ≡ true
        → EndsWith p (written (labels (record_on_wires (terms p) l q es).lines)) (plain (record_on_wires (terms p) l q es).last) }
    ensures nothing_else { (p : ProgramTree) (s : Option ℕ) (list : List Passed) (vs : List (List Item)) (l : Placement) (q : ℕ) (es : List Event) → IsPlaced p l → IsNameless p
        → IsWholeWith p s list → HasAllEnds p list vs → ends_quiet (record_of (terms p) l q es).lines ≡ true
        → (f : Renaming) × IsOneOf (map (renamed_item f.to) (written (labels (record_of (terms p) l q es).lines))) vs }
    ensures whatever_the_names { (p : ProgramTree) (s : Option ℕ) (list : List Passed) (vs : List (List Item)) (l : Placement) (q : ℕ) (es : List Event) → IsPlaced p l → IsNameless p
        → IsWholeWith p s list → HasAllEnds p list vs → all_name_none vs ≡ true → ends_quiet (record_of (terms p) l q es).lines ≡ true
        → IsOneOf (written (labels (record_of (terms p) l q es).lines)) vs }
    ensures nothing_else_on_wires { (p : ProgramTree) (s : Option ℕ) (list : List Passed) (vs : List (List Item)) (l : Placement) (q : ℕ) (es : List Event) → IsPlaced p l → IsNameless p
        → IsWholeWith p s list → HasAllEnds p list vs → ends_quiet (record_on_wires (terms p) l q es).lines ≡ true
        → (f : Renaming) × IsOneOf (map (renamed_item f.to) (written (labels (record_on_wires (terms p) l q es).lines))) vs }
    ensures whatever_the_names_on_wires { (p : ProgramTree) (s : Option ℕ) (list : List Passed) (vs : List (List Item)) (l : Placement) (q : ℕ) (es : List Event) → IsPlaced p l → IsNameless p
        → IsWholeWith p s list → HasAllEnds p list vs → all_name_none vs ≡ true → ends_quiet (record_on_wires (terms p) l q es).lines ≡ true
        → IsOneOf (written (labels (record_on_wires (terms p) l q es).lines)) vs }
{}

/// If no run leads to a configuration with a dead object, no record shows one: no prefix of its labels leads to such a
/// configuration, and its end has no cycle of calls. The list of a complete search tells that no run does so, if none
/// of its configurations has a dead object. This holds for each schedule, and each placement that fits the program.
pub fn where_nobody_dies_no_record_has_a_cycle()
    ensures dead { (p : ProgramTree) (l : Placement) (q : ℕ) (es : List Event) → IsPlaced p l → ((d : Configuration) → IsReached p d → ¬ (HasDead p d))
        → ¬ (ComesToDead p l (record_of (terms p) l q es)) }
    ensures dead_on_wires { (p : ProgramTree) (l : Placement) (q : ℕ) (es : List Event) → IsPlaced p l → ((d : Configuration) → IsReached p d → ¬ (HasDead p d))
        → ¬ (ComesToDead p l (record_on_wires (terms p) l q es)) }
    ensures cycle { (p : ProgramTree) (l : Placement) (q : ℕ) (es : List Event) → IsPlaced p l → ((d : Configuration) → IsReached p d → ¬ (HasDead p d))
        → cycles (terms p) (record_of (terms p) l q es).last (record_of (terms p) l q es).delay ≡ [] }
    ensures cycle_on_wires { (p : ProgramTree) (l : Placement) (q : ℕ) (es : List Event) → IsPlaced p l → ((d : Configuration) → IsReached p d → ¬ (HasDead p d))
        → cycles (terms p) (record_on_wires (terms p) l q es).last (record_on_wires (terms p) l q es).delay ≡ [] }
    ensures listed { (p : ProgramTree) (list : List (ℕ × Configuration)) (l : Placement) (q : ℕ) (es : List Event) → IsPlaced p l → IsNameless p → IsClosedAfterSettling p list
        → ((n : ℕ) (d : Configuration) → IsIn n d list → ¬ (HasDead p d)) → ¬ (ComesToDead p l (record_of (terms p) l q es)) }
    ensures listed_on_wires { (p : ProgramTree) (list : List (ℕ × Configuration)) (l : Placement) (q : ℕ) (es : List Event) → IsPlaced p l → IsNameless p → IsClosedAfterSettling p list
        → ((n : ℕ) (d : Configuration) → IsIn n d list → ¬ (HasDead p d)) → ¬ (ComesToDead p l (record_on_wires (terms p) l q es)) }
{}
