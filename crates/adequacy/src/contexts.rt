//! Theorems about evaluation contexts: finding and replacing a
//! redex agrees with splitting a term into a context and its hole.
//!
//! Finding and replacing are defined in `Reducible.antt` of `pool_relation`.
//! Each theorem is the contract of a function with an empty body.
ghost use Rattle.std.specs.Prelude.{◌≡◌, ◌≢◌, ℕ, [], Some, None, is_some, true, false};
ghost use Rattle.run_types.specs.declared.types.Value.{Value};
ghost use Rattle.pool_syntax.specs.Terms.{Store, Expression, Literal, Variable, Statement, Assign, Statements, Done, Then, ProgramTree};
ghost use Rattle.pool_relation.specs.Reducible.{Reducible, Evaluated, At, Set, AsExpression, AsStatements, set_value, fill_statements, statements_redex};
ghost use Rattle.pool_relation.specs.Action as A;
ghost use Rattle.pool_relation.specs.Action.{Object, action, literal, value_of};
ghost use Rattle.adequacy.specs.Contexts.{ExpressionContext, StatementsContext, around_expression, around_statements, temps_at_expression, temps_at_statements, after};
ghost use Rattle.adequacy.specs.Contexts.{expression_as_redex, statement_as_redex, own_temps, own_temps_of, Split};

/// A term is done if it has no redex; otherwise it is an evaluation context around its redex.
pub fn a_term_is_done_or_a_context_around_its_redex()
    ensures done { (ss : Statements) → statements_redex [] ss ≡ Evaluated tt → ss ≡ Done }
    ensures split { (ss : Statements) (r : Reducible) (t : Store) → statements_redex [] ss ≡ At r t → Split ss r t }
{}

/// If a term is a context around a redex, then that redex is found, with the temps of the nearest method under way.
/// At the end of a method these are the method's own temps.
pub fn the_redex_in_the_hole_is_found()
    ensures expression { (k : ExpressionContext) (e : Expression) (r : Reducible) → expression_as_redex e ≡ Some r
        → statements_redex [] (around_expression k e) ≡ At r (own_temps (temps_at_expression k) e) }
    ensures statement { (k : StatementsContext) (s : Statement) (r : Reducible) → statement_as_redex s ≡ Some r
        → statements_redex [] (around_statements k (Then s Done)) ≡ At r (own_temps_of (temps_at_statements k) s) }
{}

/// Replacing the redex puts another part into the same context.
/// An assignment has also changed a temp of the nearest method.
pub fn another_part_stands_in_the_same_context()
    ensures expression { (k : ExpressionContext) (e d : Expression) (r : Reducible) → expression_as_redex e ≡ Some r
        → fill_statements (around_expression k e) (AsExpression d) ≡ around_expression k d }
    ensures statement { (k : StatementsContext) (s : Statement) (ss : Statements) (r : Reducible) → statement_as_redex s ≡ Some r
        → fill_statements (around_statements k (Then s Done)) (AsStatements ss) ≡ around_statements (after r k) ss }
{}

/// A term has at most one split: two contexts around a redex in one term have the same part in the hole,
/// and give the same term around any part.
pub fn a_term_has_one_split()
    ensures expression { (k l : ExpressionContext) (d e : Expression) (q r : Reducible) → expression_as_redex d ≡ Some q → expression_as_redex e ≡ Some r
        → around_expression k d ≡ around_expression l e → (d ≡ e) × ((x : Expression) → around_expression k x ≡ around_expression l x) }
    ensures statement { (k l : StatementsContext) (s z : Statement) (q r : Reducible) → statement_as_redex s ≡ Some q → statement_as_redex z ≡ Some r
        → around_statements k (Then s Done) ≡ around_statements l (Then z Done) → (s ≡ z) × ((ss : Statements) → around_statements k ss ≡ around_statements l ss) }
    ensures never_both { (k : ExpressionContext) (l : StatementsContext) (e : Expression) (s : Statement) (q r : Reducible) → expression_as_redex e ≡ Some q
        → statement_as_redex s ≡ Some r → ¬ (around_expression k e ≡ around_statements l (Then s Done)) }
{}

/// A local transition changes only the part in the hole, except that an assignment also sets a variable.
/// It replaces an expression by an expression, and a statement by statements.
pub fn a_local_transition_changes_what_is_in_the_hole()
    ensures expression { (p : ProgramTree) (o : ℕ) (x : Object) (r : Reducible) (term : Statements) (vars : Store) (k : ExpressionContext) (e : Expression)
        → x.term ≡ around_expression k e → expression_as_redex e ≡ Some r → action p o x ≡ A.Local term vars
        → (d : Expression) × (term ≡ around_expression k d) × (vars ≡ x.vars) }
    ensures statement { (p : ProgramTree) (o : ℕ) (x : Object) (r : Reducible) (term : Statements) (vars : Store) (k : StatementsContext) (s : Statement)
        → x.term ≡ around_statements k (Then s Done) → statement_as_redex s ≡ Some r → action p o x ≡ A.Local term vars
        → (ss : Statements) × (term ≡ around_statements (after r k) ss) × (((n : ℕ) (v : Value) → r ≢ Set n v) → vars ≡ x.vars) }
{}

/// An assignment of a value sets the temp of its name in the nearest method under way, or else the object's variable.
/// The statement is removed, and nothing else changes. If there is neither a temp nor a variable, the object is stuck.
pub fn an_assignment_sets_the_nearest_variable()
    ensures temp { (p : ProgramTree) (o : ℕ) (x : Object) (k : StatementsContext) (n at place : ℕ) (v : Value)
        → x.term ≡ around_statements k (Then (Assign n at (Literal v place)) Done) → is_some (value_of (temps_at_statements k) n) ≡ true
        → action p o x ≡ A.Local (around_statements (after (Set n v) k) Done) x.vars }
    ensures variable { (p : ProgramTree) (o : ℕ) (x : Object) (k : StatementsContext) (n at place : ℕ) (v : Value)
        → x.term ≡ around_statements k (Then (Assign n at (Literal v place)) Done) → is_some (value_of (temps_at_statements k) n) ≡ false
        → is_some (value_of x.vars n) ≡ true → action p o x ≡ A.Local (around_statements k Done) (set_value x.vars n v) }
    ensures neither { (p : ProgramTree) (o : ℕ) (x : Object) (k : StatementsContext) (n at place : ℕ) (v : Value)
        → x.term ≡ around_statements k (Then (Assign n at (Literal v place)) Done) → is_some (value_of (temps_at_statements k) n) ≡ false
        → is_some (value_of x.vars n) ≡ false → action p o x ≡ A.Stuck }
{}

/// A name has the value of the temp in the nearest method under way, or else the value of the object's variable.
pub fn a_name_is_read_where_an_assignment_sets_it()
    ensures temp { (p : ProgramTree) (o : ℕ) (x : Object) (k : ExpressionContext) (n at : ℕ) (v : Value) → x.term ≡ around_expression k (Variable n at)
        → value_of (temps_at_expression k) n ≡ Some v → action p o x ≡ A.Local (around_expression k (literal v)) x.vars }
    ensures variable { (p : ProgramTree) (o : ℕ) (x : Object) (k : ExpressionContext) (n at : ℕ) (v : Value) → x.term ≡ around_expression k (Variable n at)
        → value_of (temps_at_expression k) n ≡ None → value_of x.vars n ≡ Some v → action p o x ≡ A.Local (around_expression k (literal v)) x.vars }
{}
