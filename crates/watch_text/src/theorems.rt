//! Laws of the definitions: each is the contract of a function with an empty body.
ghost use Rattle.std.specs.Prelude.{ℕ, ◌≤◌, List, length};
ghost use Rattle.text_scan.specs.Text.{Text};
ghost use Rattle.run_types.specs.declared.types.Line.{Line};
ghost use Rattle.run_types.specs.declared.verdicts.Verdict.{Verdict};
ghost use Rattle.pool_syntax.specs.Terms.{ProgramTree};
ghost use Rattle.watch_text.specs.WatchedRun.{IsWatched, IsWatchedPart};

/// From line 1 to the last line, or to a line behind it, the part of a record that is shown is the whole.
pub fn a_part_of_all_lines_is_the_whole()
    ensures whole { (p : ProgramTree) (names : List Text) (ls : List Line) (last : ℕ) (text : Text) (v : Verdict) → length ls ≤ last → IsWatchedPart p names ls 1 last text v
        → IsWatched p names ls text v }
    ensures part { (p : ProgramTree) (names : List Text) (ls : List Line) (last : ℕ) (text : Text) (v : Verdict) → length ls ≤ last → IsWatched p names ls text v
        → IsWatchedPart p names ls 1 last text v }
{}
