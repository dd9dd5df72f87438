//! Laws of the definitions: each is the contract of a function with an empty body.
ghost use Rattle.std.specs.Prelude.{◌≡◌, ℕ, List, Bool};
ghost use Rattle.text_scan.specs.Text.{Text};
ghost use Rattle.pool_syntax.specs.Terms.{ProgramTree};
ghost use Rattle.search_text.specs.Answers.{Grades};
ghost use Rattle.search_text.specs.GradedRuns.{RunsWell};
ghost use Rattle.search_text.specs.declared.answers.Found.TheVariants as O;

/// If the grade is a pass, each run that comes to its end wrote one of the allowed outputs, under other names of objects,
/// met no error, and leaves no object in a call. No run at all leads to an error or to a dead object: with each object
/// that waits in a call some run goes on. Some run comes to its end, unless the program may run on.
pub fn each_run_of_a_pass_ends_well()
    ensures { (names allowed : List Text) (p : ProgramTree) (may_run_on : Bool) (most : ℕ) (text : Text) → Grades names p allowed may_run_on most text O.Finite → RunsWell names allowed may_run_on p }
{}
