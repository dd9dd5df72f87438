//! Laws of the definitions: each is the contract of a function with an empty body.
ghost use Rattle.std.specs.Prelude.{◌≡◌, ◌++◌, ℕ, List, Some};
ghost use Rattle.text_scan.specs.Text.{Text};
ghost use Rattle.run_types.specs.declared.types.Label.{Label};
ghost use Rattle.run_types.specs.declared.types.Line.{Line};
ghost use Rattle.pool_syntax.specs.Terms.{ProgramTree};
ghost use Rattle.pool_syntax.specs.TreeOf.{expression_of, statements_of};
ghost use Rattle.pool_syntax.specs.declared.tree.Expr.{Expr};
ghost use Rattle.pool_syntax.specs.declared.tree.Stmt.{Stmt};
ghost use Rattle.pool_printer.specs.Canonical.{bare_tokens, statements_tokens};
ghost use Rattle.pool_relation.specs.Action.{Object};
ghost use Rattle.pool_relation.specs.Configuration.{Configuration, object_of};
ghost use Rattle.pool_relation.specs.Typed.{Typed};
ghost use Rattle.pool_relation.specs.UnderWay.{in_statements};
ghost use Rattle.pool_relation.specs.Transition.{run, start};
ghost use Rattle.mesh_semantics.specs.Record.{labels, labels_of};
ghost use Rattle.term_text.specs.Watched.{followed_text, watched_text};
ghost use Rattle.term_text.specs.Words.{bare_text, statements_text};
ghost use Rattle.term_text.specs.Levels.{statements_lines};
ghost use Rattle.watch_laws.specs.LastLines.{ShowsLast, followed_parts, watched_parts, written};
ghost use Rattle.watch_laws.specs.MethodLines.{HasLineOfEach};
ghost use Rattle.watch_laws.specs.Spelled.{spelled};
ghost use Rattle.watch_laws.specs.Views.{IsOutside, objects_in, pair_in, seen, seen_mail};

/// If a line of a record does not write an object or a pair, the text of it is as before.
pub fn what_is_not_written_is_as_before()
    ensures objects { (names : List Text) (p : ProgramTree) (c d : Configuration) (l : Line) (q : ℕ) → run p c (labels_of l) ≡ Some d → IsOutside q (objects_in l)
        → seen names p d q ≡ seen names p c q }
    ensures messages { (names : List Text) (p : ProgramTree) (c d : Configuration) (l : Line) (s r : ℕ) → run p c (labels_of l) ≡ Some d → (pair_in l ≡ Some (s, r) → ⊥)
        → seen_mail names d s r ≡ seen_mail names c s r }
{}

/// If the first lines are possible, the text of the others begins at the configuration to which the first ones lead.
pub fn each_line_is_shown_where_the_lines_before_lead()
    ensures { (names : List Text) (p : ProgramTree) (c d : Configuration) (front rest : List Line) → run p c (labels front) ≡ Some d
        → followed_text names p c (front ++ rest) ≡ followed_text names p c front ++ followed_text names p d rest }
{}

/// A reader who keeps the last block of each object and the last line of each pair has the configuration after each
/// possible line. The text is that of its parts, and the first lines have the first parts. After the lines `front`, the
/// last parts show the configuration to which the labels of these lines lead. The labels `before` come before the text.
/// They are empty if it begins with the start.
pub fn the_last_lines_show_the_configuration()
    ensures parts { (names : List Text) (p : ProgramTree) (c : Configuration) (ls : List Line) → written (watched_parts names p c ls) ≡ watched_text names p c ls }
    ensures fronts { (names : List Text) (p : ProgramTree) (c d : Configuration) (front rest : List Line) → run p c (labels front) ≡ Some d
        → watched_parts names p c (front ++ rest) ≡ watched_parts names p c front ++ followed_parts names p d rest }
    ensures last { (names : List Text) (p : ProgramTree) (n : ℕ) (from c d : Configuration) (before : List Label) (front : List Line) → start p n ≡ Some from → run p from before ≡ Some c
        → run p c (labels front) ≡ Some d → ShowsLast names p d (watched_parts names p c front) }
{}

/// The text of an expression and of statements of a program is that of their canonical tokens, each after a space.
pub fn program_text_is_its_canonical_tokens()
    ensures expressions { (names : List Text) (e : Expr) → bare_text names (expression_of e) ≡ spelled names (bare_tokens (expression_of e)) }
    ensures statements { (names : List Text) (ss : List Stmt) → statements_text names (statements_of ss) ≡ spelled names (statements_tokens (statements_of ss)) }
{}

/// In a typed configuration, the lines of an object's term are its body and one for each method under way, in the order
/// of the relation.
pub fn each_method_under_way_has_a_line()
    ensures { (names : List Text) (p : ProgramTree) (c : Configuration) (o : ℕ) (x : Object) → Typed p c → object_of c o ≡ Some x
        → HasLineOfEach names o (in_statements x.term) (statements_lines names o x.term) }
{}
