//! Laws of patterns: functions without code, whose contracts are the laws.
ghost use Rattle.std.specs.Prelude.{◌≡◌, List, true, false};
ghost use Rattle.run_types.specs.declared.types.Item.{Item};
ghost use Rattle.patterns.specs.Patterns.{BeginsOne, Matches, Pattern, after_item, after_items, is_nullable, is_void, nameless};

/// What is left of a pattern after some items tells exactly whether they begin a list that the pattern matches, and
/// whether it matches them. The names of objects do not matter.
pub fn what_is_left_of_a_pattern_tells_what_may_follow()
    ensures begins { (r : Pattern) (w : List Item) → is_void (after_items r w) ≡ false → BeginsOne r w }
    ensures begins_none { (r : Pattern) (w : List Item) → is_void (after_items r w) ≡ true → ¬ (BeginsOne r w) }
    ensures whole { (r : Pattern) (w : List Item) → is_nullable (after_items r w) ≡ true → Matches r w }
    ensures not_whole { (r : Pattern) (w : List Item) → Matches r w → is_nullable (after_items r w) ≡ true }
    ensures names { (r : Pattern) (i j : Item) → nameless i ≡ nameless j → after_item r i ≡ after_item r j }
{}
