//! The theorem about stations of code. It is the contract of a function with an empty body.
ghost use Rattle.std.specs.Prelude.{◌≡◌, ℕ, List, Some};
ghost use Rattle.run_types.specs.declared.types.Placement.{Placement};
ghost use Rattle.code_semantics.specs.declared.unit.Unit.{Unit as Code};
ghost use Rattle.code_semantics.specs.Proper.{IsProper};
ghost use Rattle.code_semantics.specs.Suits.{Suits};
ghost use Rattle.mesh_of_code.specs.Coded.{Placed, coded};
ghost use Rattle.node_semantics.specs.Machine.{Machine, machine_start};
ghost use Rattle.station_semantics.specs.AllQuiet.{AllQuiet};
ghost use Rattle.station_semantics.specs.Whole.{Step, AreCarried, after_steps, apart, merged};
ghost use Rattle.station_of_code.specs.Shown.{ShowOneRun};

/// Whatever the carrier does between the stations of a proper unit, their merged lines are a record and show one run of
/// the transition relation. If the stations say that all is quiet, no transition is possible after it.
pub fn stations_of_code_show_one_run()
    ensures { (u : Code) (l : Placement) (q : ℕ) (m : Machine Placed) (is : List Step) → IsProper u → Suits l u → machine_start (coded u) l ≡ Some m → AreCarried (coded u) l q (apart m) is
        → ShowOneRun u l q (merged (coded u) l q (apart m) is) (AllQuiet (coded u) (after_steps (coded u) l q (apart m) is)) }
{}
