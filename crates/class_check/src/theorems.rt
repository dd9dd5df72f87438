//! The theorem that connects the grammar with the written programs: the contract of a function that does nothing.
ghost use Rattle.std.specs.Prelude.{IsTrue};
ghost use Rattle.pool_syntax.specs.Terms.{ProgramTree};
ghost use Rattle.pool_grammar.specs.Grammatical.{IsGrammatical};
ghost use Rattle.pool_syntax.specs.Written.{is_written};

/// Every program of the grammar is a written program. No method is being executed in it, each operator has its number
/// of operands, and a method without a result has the value `nil`.
pub fn grammatical_is_written()
    ensures { (p : ProgramTree) → IsGrammatical p → IsTrue (is_written p) }
{}
