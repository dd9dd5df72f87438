//! Theorems about the grammar. Each is the contract of a function that does nothing.
ghost use Rattle.std.specs.Prelude.{◌≡◌, ℕ, ◌≤◌, List as ListOf};
ghost use Rattle.pool_syntax.specs.declared.token.Tok.{Tok as OneToken};
ghost use Rattle.pool_grammar.specs.Rules.{Phrase, Tree};
ghost use Rattle.pool_grammar.specs.Grammar.{rule};
ghost use Rattle.pool_grammar.specs.Derives.{Derives, Begins, IsProgram};
ghost use Rattle.pool_syntax.specs.Terms.{ProgramTree};
ghost use Rattle.text_scan.specs.Text.{Text};
ghost use Rattle.pool_grammar.specs.Programs.{IsParsed};

/// Tokens that a phrase derives also begin it.
pub fn derived_begins()
    ensures { (ts : ListOf OneToken) (p : Phrase) (i j : ℕ) (x : Tree p) → Derives ts p (rule p) i j x → Begins ts p (rule p) i j }
{}

/// Every prefix of tokens that begin a phrase also begins it.
pub fn front_begins()
    ensures { (ts : ListOf OneToken) (p : Phrase) (i j k : ℕ) → Begins ts p (rule p) i j → i ≤ k → k ≤ j → Begins ts p (rule p) i k }
{}

/// The grammar is unambiguous: a list of tokens is at most one program.
pub fn one_program()
    ensures { (ts : ListOf OneToken) (p q : ProgramTree) → IsProgram ts p → IsProgram ts q → p ≡ q }
{}

/// A text is at most one program, and has at most one table of its names and strings.
pub fn a_text_has_one_program()
    ensures { (s : Text) (names others : ListOf Text) (p q : ProgramTree) → IsParsed s names p → IsParsed s others q → (names ≡ others) × (p ≡ q) }
{}
