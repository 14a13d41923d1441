//! The sets of events that are firable in trees of modes, and the families that list them.
//!
//! The definitions stand in `specs/`. Each function here has an empty body and states a law of them.
#![tactic(auto)]

ghost use Rattle.std.specs.Prelude.{◌≡◌, ◌+◌, ◌<◌, ◌↔◌, ℕ, Bool, List, [], cond, Option};
ghost use Rattle.std.specs.List.{AllByRecursion, filter};
ghost use Rattle.ar_base.specs.Sets.{Ascends};
ghost use Rattle.domains.specs.declared.Value.{Value};
ghost use Rattle.ar_meaning.specs.Systems.{System};
ghost use Rattle.ar_firing.specs.Static.{IsKeyedStatic};
ghost use Rattle.ar_firing.specs.Cuts.{IsFirable, IsLeast};
ghost use Rattle.ar_firing.specs.Operands.{IsFirableWith};
ghost use Rattle.ar_firing.specs.Listed.{AreListed};
ghost use Rattle.ar_firing.specs.Forest.{ModeTree, IsForest};
ghost use Rattle.ar_firing.specs.Trees.{IsTree, HaveOwnEvents, AreTrees};
ghost use Rattle.mode_trees.specs.declared.forests.Forest.{Forest};
ghost use Rattle.mode_trees.specs.Views.{trees_of};
ghost use Rattle.zdd_nodes.specs.Families.{Family, minimal};
ghost use Rattle.zdd_nodes.specs.FamiliesInside.{IsFamily};
ghost use Rattle.zdd_nodes.specs.Sections.{section};
ghost use Rattle.firable_families.specs.FirableInside.{IsPathSet, IsFirableOf, IsFirableUpTo, IsOfMembers, ListsLeast, ListsLeastUpTo};
ghost use Rattle.firable_families.specs.Entries.{AreTreeEntries, HasEntries};
ghost use Rattle.firable_families.specs.Walk.{left, after, could, few_of, AreTreeFamilies, AreEventsBelow};

/// Laws of the families of firable sets.
///
/// - `lists_of_walk`, `sections_of_walk`: The walk through the events lists the firable sets, and what it has
///   left after some of them is a section of their family.
/// - `tree_families`: The family of a tree's modes, each with the events of a path to it, lists the tree's
///   paths.
/// - `small_sets`: Of the firable sets that are listed, those of at most so many events are listed.
/// - `least_sets`: The minimal sets of the firable ones at which a test is true are the least such sets; also where only
///   sets of at most so many events are asked for.
/// - `firable_in_forests`, `least_in_forests`: In the trees of its forest the sets are firable that are so in a
///   static system, and the least of them at which a test is true are the system's.
/// - `firable_by_ways`, `trees_by_ways`: How the ways of a forest are numbered changes nothing in what is
///   firable in its trees, nor in that they are trees.
pub fn firable_laws<V>()
    ensures lists_of_walk { (trees : List ModeTree) (fs : List Family) → AreTreeFamilies trees fs → (n : ℕ)
        → HaveOwnEvents trees
        → AreEventsBelow n fs → AreListed (IsFirableOf trees) (left n 0 fs) }
    ensures sections_of_walk { (m k : ℕ) (p : List ℕ) (fs : List Family) → Ascends p
        → AllByRecursion (λ x. x < m) p
        → section m p (left (m + k) 0 fs) ≡ cond (could m 0 p fs) (left k m (after m 0 p fs)) [] }
    ensures tree_families { (tree : ModeTree) → IsTree tree → (entries : List (Value × List ℕ))
        → AreTreeEntries tree entries
        → (f : Family) → IsFamily f → HasEntries entries f → AreListed (IsPathSet tree) f }
    ensures small_sets { (order : Option ℕ) (trees : List ModeTree) (all : Family)
        → AreListed (IsFirableOf trees) all → AreListed (IsFirableUpTo order trees) (few_of order all) }
    ensures least_sets { (order : Option ℕ) (trees : List ModeTree) (test : List ℕ → Bool)
        → IsOfMembers test → (all : Family) → AreListed (IsFirableUpTo order trees) all
        → ListsLeastUpTo order trees test (minimal (filter test all)) }
    ensures firable_in_forests { (sys : System V) (dropped : List ℕ) → IsKeyedStatic sys dropped
        → (trees : List ModeTree) → IsForest sys dropped trees
        → (set : List ℕ) → (IsFirableOf trees set
        ↔ ((t : List Value) × IsFirable sys dropped set t)) }
    ensures least_in_forests { (sys : System V) (dropped : List ℕ) → IsKeyedStatic sys dropped
        → (trees : List ModeTree) → IsForest sys dropped trees
        → (test : List ℕ → Bool) (sets : List (List ℕ))
        → ListsLeast trees test sets → AreListed (IsLeast (IsFirableWith sys dropped test)) sets }
    ensures firable_by_ways { (number other : ℕ → ℕ) (forest : Forest) (set : List ℕ)
        → (IsFirableOf (trees_of number forest) set ↔ IsFirableOf (trees_of other forest) set) }
    ensures trees_by_ways { (number other : ℕ → ℕ) (forest : Forest)
        → (AreTrees (trees_of number forest) ↔ AreTrees (trees_of other forest)) }
{}
