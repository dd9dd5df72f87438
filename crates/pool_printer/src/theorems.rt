//! Theorems about the canonical text. Each is the contract of a function that does nothing.
ghost use Rattle.std.specs.Prelude.{◌≡◌, true, List as ListOf};
ghost use Rattle.pool_syntax.specs.declared.token.Token.{Token as OneToken};
ghost use Rattle.pool_grammar.specs.Grammatical.{IsGrammatical};
ghost use Rattle.pool_syntax.specs.Spelled.{is_spelled};
ghost use Rattle.pool_syntax.specs.Terms.{ProgramTree};
ghost use Rattle.text_scan.specs.Text.{Text};
ghost use Rattle.pool_printer.specs.SameProgram.{IsSameProgram};

/// The canonical text of a program parses to the same program, up to positions and the numbers of names and strings.
/// The program must be one of the grammar, and its names, strings and integers must be such that they can be written.
pub fn canonical_text_is_the_program()
    ensures { (names : ListOf Text) (p : ProgramTree) → is_spelled names p ≡ true → IsGrammatical p → (other : ListOf Text) × (ts : ListOf OneToken) × (q : ProgramTree)
        × IsSameProgram names p other ts q }
{}
