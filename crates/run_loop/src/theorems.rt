//! Theorems about reports. Each is the contract of a function.
ghost use Rattle.std.specs.Prelude.{List as ListOf, ℕ};
ghost use Rattle.pool_syntax.specs.Terms.{ProgramTree};
ghost use Rattle.pool_relation.specs.Action.{Object};
ghost use Rattle.mesh_semantics.specs.Config.{Config};
ghost use Rattle.mesh_semantics.specs.Delay.{Delay};
ghost use Rattle.mesh_semantics.specs.Cycles.{Contained, IsCycle, called_by};
ghost use Rattle.mesh_of_terms.specs.Terms.{terms};
ghost use Rattle.wait_report.specs.Report.{cycles_in};
ghost use Rattle.run_loop.specs.Reports.{rows_of};

use wait_report::theorems::cycles_are_all_and_no_other;

/// The report of `pool why` lists exactly the cycles of calls in a configuration.
pub fn told_cycles_are_the_cycles_of_calls()
    ensures all { (p : ProgramTree) (c : Config Object) (d : Delay) (ns : ListOf ℕ) → IsCycle (called_by (terms p) c d) ns → Contained ns (cycles_in (rows_of p c d)) }
    ensures no_other { (p : ProgramTree) (c : Config Object) (d : Delay) (ns : ListOf ℕ) → Contained ns (cycles_in (rows_of p c d)) → IsCycle (called_by (terms p) c d) ns }
{
    cycles_are_all_and_no_other();
}
