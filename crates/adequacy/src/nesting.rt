//! A theorem about the nesting depth of a token.
ghost use Rattle.std.specs.Prelude.{◌≡◌, ℕ, List, Some, slice_get, take};
ghost use Rattle.pool_syntax.specs.declared.token.Tok.{Tok};
ghost use Rattle.pool_grammar.specs.Nesting.{nesting, role};
ghost use Rattle.adequacy.specs.Forward.{behind, depth_at, nothing_open};

/// The depth of a token, defined by looking back from it, equals the depth by a fold from the first token.
/// The fold keeps the open brackets and operators after the tokens before it, and the token adds its own.
pub fn nesting_is_a_fold_forward()
    ensures { (ts : List Tok) (i : ℕ) (t : Tok) → slice_get ts i ≡ Some t → nesting ts i ≡ depth_at (behind nothing_open (take i ts)) (role t) }
{}
