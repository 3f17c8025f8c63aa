//! What `KeySet::first_outside` of `key_sets` answers. Which key it gives isn't fixed, nor which one `KeySet::element` gives: any one in
//! the set may come.

ghost use Rattle.std.specs.Prelude.{◌≡◌, MatchOption, Option, is_some};
ghost use Rattle.type_terms.specs.declared.term.Key.{Key};
ghost use Rattle.key_sets.specs.KeySets.{IsOutside, IsSubset};
ghost use Rattle.key_sets.specs.declared.key_set.KeySet.{KeySet};

/// A set is within another one, or a key is given.
pub fn a_key_outside_or_none()
    ensures { (left right : KeySet) (a b : Option Key) →
        MatchOption a (IsSubset left right) (IsOutside left right) → MatchOption b (IsSubset left right) (IsOutside left right) → is_some a ≡ is_some b }
{}
