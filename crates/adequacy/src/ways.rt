//! Theorems about the configurations along a record: each is
//! right, that is typed and without an object that goes wrong.
ghost use Rattle.std.specs.Prelude.{◌≡◌, ℕ, List, [], ◌++◌, take, drop, Some, IsTrue};
ghost use Rattle.run_types.specs.declared.types.Label.{Label};
ghost use Rattle.run_types.specs.declared.types.Placement.{Placement};
ghost use Rattle.pool_syntax.specs.Terms.{ProgramTree};
ghost use Rattle.pool_syntax.specs.Typing.{faults};
ghost use Rattle.pool_relation.specs.Action.{Object};
ghost use Rattle.pool_relation.specs.Configuration.{Configuration};
ghost use Rattle.pool_relation.specs.Transition.{run};
ghost use Rattle.pool_relation.specs.Typed.{Typed};
ghost use Rattle.pool_syntax.specs.Written.{is_written};
ghost use Rattle.mesh_semantics.specs.Delay.{Delay};
ghost use Rattle.mesh_semantics.specs.Record.{Record, labels};
ghost use Rattle.mesh_of_terms.specs.Terms.{plain};
ghost use Rattle.mesh_of_terms.specs.RunOf.{GoesBy, IsRight, IsRunFrom};
ghost use Rattle.adequacy.specs.RightWay.{IsRightWay};

/// Each prefix of the labels leads to a right configuration if and
/// only if each label leads from one right configuration to the next.
/// The first and the last configuration are right too. The configuration after a prefix is determined.
pub fn each_configuration_on_the_way_is_right()
    ensures one_by_one { (p : ProgramTree) (c z : Configuration) (ls : List Label) → ((front rest : List Label) → front ++ rest ≡ ls → GoesBy p c z front rest) → IsRightWay p c ls z }
    ensures and_back { (p : ProgramTree) (c z : Configuration) (ls front rest : List Label) → IsRightWay p c ls z → front ++ rest ≡ ls → GoesBy p c z front rest }
    ensures determined { (p : ProgramTree) (c d z : Configuration) (front rest : List Label) → (goes : GoesBy p c z front rest) → run p c front ≡ Some d → goes.between ≡ d }
{}

/// If a written program has no class faults, each configuration of a run from a typed configuration is right.
pub fn each_run_is_a_right_way()
    ensures { (p : ProgramTree) (c z : Configuration) (ls : List Label) → faults p ≡ [] → IsTrue (is_written p) → Typed p c → run p c ls ≡ Some z → IsRightWay p c ls z }
{}

/// The configuration after the first k labels of a record is right, for each k.
/// The other labels lead from it to the last one. So each configuration along the record is right.
pub fn a_record_is_a_right_way()
    ensures after_each_number { (p : ProgramTree) (l : Placement) (q k : ℕ) (c : Configuration) (d : Delay) (r : Record Object) → IsRunFrom p l q c d r
        → (e : Configuration) × (run p c (take k (labels r.lines)) ≡ Some e) × (run p e (drop k (labels r.lines)) ≡ Some (plain r.last)) × IsRight p e }
    ensures way { (p : ProgramTree) (l : Placement) (q : ℕ) (c : Configuration) (d : Delay) (r : Record Object) → IsRunFrom p l q c d r
        → IsRightWay p c (labels r.lines) (plain r.last) }
{}
