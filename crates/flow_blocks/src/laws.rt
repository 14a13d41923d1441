//! Laws of the classes and their order.

ghost use Rattle.std.specs.Prelude.{◌≡◌, ℕ, ◌<◌, ◌⊎◌, List, [], take};
ghost use Rattle.ar_base.specs.Lists.{Stands, IsOneOf};
ghost use Rattle.flow_blocks.specs.Blocks.{Depends, IsGiven, Follow};
ghost use Rattle.flow_blocks.specs.BlocksInside.{AreUsesBelow};

/// Laws of the blocks of a graph.
///
/// - `some_list`, `one_list`: A graph has exactly one list of classes, where its uses name numbers below the
///   count only.
/// - `some_class`, `one_class`, `earlier_class`: Each number is in exactly one class, and what it depends on is
///   in that class or in an earlier one.
pub fn block_laws()
    ensures some_list { (count : ℕ) (uses : List (ℕ × ℕ)) → AreUsesBelow count uses
        → (blocks : List (List ℕ)) × Follow count uses [] blocks }
    ensures one_list { (count : ℕ) (uses : List (ℕ × ℕ)) (xs ys : List (List ℕ))
        → Follow count uses [] xs → Follow count uses [] ys → xs ≡ ys }
    ensures some_class { (count : ℕ) (uses : List (ℕ × ℕ)) (blocks : List (List ℕ))
        → Follow count uses [] blocks → (n : ℕ) → n < count → IsGiven blocks n }
    ensures one_class { (count : ℕ) (uses : List (ℕ × ℕ)) (blocks : List (List ℕ))
        → Follow count uses [] blocks → (j k n : ℕ) (xs ys : List ℕ)
        → Stands blocks j xs → Stands blocks k ys → IsOneOf xs n → IsOneOf ys n → j ≡ k }
    ensures earlier_class { (count : ℕ) (uses : List (ℕ × ℕ)) (blocks : List (List ℕ))
        → Follow count uses [] blocks → (k a n : ℕ) (xs : List ℕ)
        → n < count → Stands blocks k xs → IsOneOf xs a → Depends uses a n
        → IsOneOf xs n ⊎ IsGiven (take k blocks) n }
{}
