//! Equality of names with their tokens.
ghost use Rattle.std.specs.Prelude.{◌≡◌, true};

use pool_syntax::Named;
use run_types::List;

/// Whether two names are the same, at the same token.
pub fn same_named(left: Named, right: Named) -> bool
    ensures same { result ≡ true → left ≡ right }
    ensures different { left ≡ right → result ≡ true }
{
    left.name.0 == right.name.0 && left.pos == right.pos
}

/// Whether two lists have the same names at the same tokens.
pub fn same_names(left: &[Named], right: &[Named]) -> bool
    ensures same { result ≡ true → left.now ≡ right.now }
    ensures different { left.now ≡ right.now → result ≡ true }
{
    if left.len() != right.len() {
        return false;
    }
    for (i, named) in left.iter().enumerate() {
        if !same_named(*named, right[i]) {
            return false;
        }
    }
    true
}

/// Whether two answer lists are the same, or both are missing.
pub fn same_answer(left: &Option<List<Named>>, right: &Option<List<Named>>) -> bool
    ensures same { result ≡ true → left.now ≡ right.now }
    ensures different { left.now ≡ right.now → result ≡ true }
{
    match (left, right) {
        (Some(names), Some(others)) => same_names(names.items(), others.items()),
        (None, None) => true,
        _ => false,
    }
}
