//! A law of the definitions: the contract of a function with an empty body.
ghost use Rattle.std.specs.Prelude.{◌≡◌, ℕ, List};
ghost use Rattle.text_scan.specs.Text.{Text};
ghost use Rattle.stepper_terms.specs.declared.contexts.Continuation.{Continuation};
ghost use Rattle.stepper_terms.specs.Parts.{term_of};
ghost use Rattle.term_text.specs.Levels.{term_lines};
ghost use Rattle.stepper_text.specs.Inners.{work_lines};

/// The lines that are made of an object's work, context by context, are those of its term.
pub fn the_lines_of_work_are_those_of_its_term()
    ensures { (names : List Text) (o : ℕ) (w : Continuation) → work_lines names o w ≡ term_lines names o (term_of w) }
{}
