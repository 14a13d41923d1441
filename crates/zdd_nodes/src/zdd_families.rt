//! What families of sets of events are, and what operations on them mean.
//!
//! The definitions stand in `specs/`. Each function here has an empty body and states a law of them.

ghost use Rattle.std.specs.Prelude.{◌≡◌, ◌↔◌, ◌||◌, ◌&&◌, true, not, ℕ, List, [], ◌∷◌};
ghost use Rattle.std.specs.List.{list_any};
ghost use Rattle.std.specs.declared.cmp.Ordering.TheVariants.{Less, Equal};
ghost use Rattle.ar_base.specs.Lists.{IsOneOf};
ghost use Rattle.ar_base.specs.Sets.{Ascends, IsBefore};
ghost use Rattle.zdd_nodes.specs.Families.{Family, same, within, has, holds, minimal, without};
ghost use Rattle.zdd_nodes.specs.FamiliesInside.{order, node, union, meet, minus, having};
ghost use Rattle.zdd_nodes.specs.Sections.{section};
ghost use Rattle.zdd_nodes.specs.OneList.{OneListEach};
ghost use Rattle.zdd_nodes.specs.Worked.{three, one};

/// Laws of families of sets.
///
/// - `worked_union`, `worked_meet`, `worked_minus`, `worked_having`, `worked_minimal`, `worked_without`,
///   `worked_halves`, `worked_with_first`, `worked_without_first`: A worked row: of the families {0}, {0, 1},
///   {1, 2} and {0} the operations make what they should.
/// - `order_of_sets`, `equal_sets`, `order_holds`, `order_within`, `same_order`: Of ascending sets one comes
///   before another where the least number that is in just one of them is in the first, and a set holds its
///   members and no other number. One set lies within another where each of its members is one of the other's.
/// - `sets_of_union`, `sets_of_meet`, `sets_of_minus`, `sets_of_having`, `sets_of_without`, `sets_of_minimal`:
///   Which sets the operations give.
/// - `one_list_each`: Two families with the same sets are the same list.
pub fn family_laws()
    ensures worked_union { union three one ≡ three }
    ensures worked_meet { meet three one ≡ one }
    ensures worked_minus { minus three one ≡ (0 ∷ 1 ∷ []) ∷ (1 ∷ 2 ∷ []) ∷ [] }
    ensures worked_having { having three 1 ≡ (0 ∷ 1 ∷ []) ∷ (1 ∷ 2 ∷ []) ∷ [] }
    ensures worked_minimal { minimal three ≡ (0 ∷ []) ∷ (1 ∷ 2 ∷ []) ∷ [] }
    ensures worked_without { without three one ≡ (1 ∷ 2 ∷ []) ∷ [] }
    ensures worked_halves { node 0 ((1 ∷ 2 ∷ []) ∷ []) ((1 ∷ []) ∷ [] ∷ []) ≡ three }
    ensures worked_with_first { section 1 (0 ∷ []) three ≡ (1 ∷ []) ∷ [] ∷ [] }
    ensures worked_without_first { section 1 [] three ≡ (1 ∷ 2 ∷ []) ∷ [] }
    ensures order_of_sets { (s t : List ℕ) → Ascends s → Ascends t → ((order s t ≡ Less) ↔ IsBefore s t) }
    ensures equal_sets { (s t : List ℕ) → order s t ≡ Equal → s ≡ t }
    ensures order_holds { (x : ℕ) (s : List ℕ) → ((holds x s ≡ true) ↔ IsOneOf s x) }
    ensures order_within { (s t : List ℕ) → ((within s t ≡ true)
        ↔ ((x : ℕ) → IsOneOf s x → IsOneOf t x)) }
    ensures same_order { (s t : List ℕ) → ((same s t ≡ true) ↔ (s ≡ t)) }
    ensures sets_of_union { (f g : Family) (s : List ℕ) → has (union f g) s ≡ (has f s || has g s) }
    ensures sets_of_meet { (f g : Family) (s : List ℕ) → has (meet f g) s ≡ (has f s && has g s) }
    ensures sets_of_minus { (f g : Family) (s : List ℕ) → has (minus f g) s ≡ (has f s && not (has g s)) }
    ensures sets_of_having { (f : Family) (e : ℕ) (s : List ℕ)
        → has (having f e) s ≡ (has f s && holds e s) }
    ensures sets_of_without { (f g : Family) (s : List ℕ)
        → has (without f g) s ≡ (has f s && not (list_any (λ t. within t s) g)) }
    ensures sets_of_minimal { (f : Family) (s : List ℕ)
        → has (minimal f) s ≡ (has f s && not (list_any (λ t. within t s && not (same t s)) f)) }
    ensures one_list_each { OneListEach }
{}
