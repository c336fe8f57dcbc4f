//! Laws of the definitions.
ghost use Rattle.std.specs.Prelude.{◌≡◌, ℕ, List, [], ◌∷◌, ◌++◌, Some, map, true};
ghost use Rattle.std.specs.List.{list_any, list_all};
ghost use Rattle.std.specs.List.Sorted.{IsPermutation};
ghost use Rattle.claims.specs.declared.set.Set.{Set};
ghost use Rattle.claims.specs.declared.trace.Found.{Found};
ghost use Rattle.claims.specs.Orders.{is_before, is_related};
ghost use Rattle.claims.specs.declared.order.Relation.TheVariants.{After};
ghost use Rattle.claims.specs.Values.{value_of, has_value, have_values, have_in_any_order, last_has};
ghost use Rattle.claims.specs.InTime.{are_in_time, fit_one_by_one};

/// If one line of an event is before all others of them, a line is after some line of the event exactly if it is after
/// that first one.
pub fn after_means_after_the_first()
    ensures first_decides { (first line : Found) (others : List Found) → list_all (is_before first) others ≡ true
        → list_any (is_related After line) (first ∷ others) ≡ is_before first line }
{}

/// The values of lines are some values in any order exactly if they are a permutation of them.
pub fn any_order_is_a_permutation()
    ensures permuted { (values : List ℕ) (lines : List Found) → have_in_any_order values lines ≡ true
        → IsPermutation (map Some values) (map value_of lines) }
    ensures any_order { (values : List ℕ) (lines : List Found) → IsPermutation (map Some values) (map value_of lines)
        → have_in_any_order values lines ≡ true }
{}

/// If all lines are sorted by moment, their values are in some sets, one by one, exactly if each set has the value of the
/// sorted line at its place; and the last line is the last of the sorted ones.
pub fn values_are_in_time()
    ensures one_by_one { (sets : List Set) (lines sorted : List Found) → IsPermutation lines sorted
        → are_in_time sorted ≡ true → have_values sets lines ≡ fit_one_by_one sets sorted }
    ensures last { (set : Set) (lines earlier : List Found) (last : Found) → IsPermutation lines (earlier ++ last ∷ [])
        → are_in_time (earlier ++ last ∷ []) ≡ true → last_has set lines ≡ has_value set last }
{}
