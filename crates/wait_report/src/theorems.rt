//! A law of the definitions alone: the contract of a function with an empty body.
ghost use Rattle.std.specs.Prelude.{ℕ, List};
ghost use Rattle.mesh_semantics.specs.Cycles.{Contained, IsCycle};
ghost use Rattle.wait_report.specs.declared.rows.ObjectRow.{ObjectRow};
ghost use Rattle.wait_report.specs.Report.{called_in, cycles_in};

/// The reported cycles are all cycles of objects in which each calls the next, and no others.
pub fn cycles_are_all_and_no_other()
    ensures all { (rows : List ObjectRow) (ns : List ℕ) → IsCycle (called_in rows) ns → Contained ns (cycles_in rows) }
    ensures no_other { (rows : List ObjectRow) (ns : List ℕ) → Contained ns (cycles_in rows) → IsCycle (called_in rows) ns }
{}
