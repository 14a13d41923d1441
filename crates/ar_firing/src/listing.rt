//! The forest of a static system, and the order in which a set's labels and the sets themselves are
//! listed.

ghost use Rattle.std.specs.Prelude.{ℕ, List, true, ◌≡◌, ◌↔◌, ◌⊎◌, reverse};
ghost use Rattle.domains.specs.declared.Value.{Value};
ghost use Rattle.ar_meaning.specs.Systems.{System};
ghost use Rattle.ar_meaning.specs.Runs.{Label};
ghost use Rattle.ar_firing.specs.Fragment.{IsLive};
ghost use Rattle.ar_firing.specs.Static.{IsKeyedStatic};
ghost use Rattle.ar_base.specs.Lists.{Stands, IsOneOf};
ghost use Rattle.ar_meaning.specs.Systems.{Variable};
ghost use Rattle.ar_firing.specs.Cuts.{IsFirable, Cut, ConflictSet};
ghost use Rattle.ar_firing.specs.CutsInside.{IsLegalOrder, NoneLeaves};
ghost use Rattle.ar_base.specs.Sets.{Within, IsBefore};
ghost use Rattle.typed_expr.specs.declared.expr.Expr.{Expr};
ghost use Rattle.ar_firing.specs.Listed.{AreListed};
ghost use Rattle.ar_firing.specs.Forest.{Row, ModeTree, IsModeTree, IsForest, IsLine};
ghost use Rattle.ar_firing.specs.Trees.{AreTrees};

/// Laws of the forest of a static system.
///
/// - `one_forest`: A static system has one forest.
/// - `tree_edges`: The edges of a mode variable's tree are its live edges.
/// - `forest_trees`: In each tree of a static system's forest an edge leaves the first mode or one that an
///   earlier edge enters, none enters the first mode, and no two enter one mode or have one event; no event has
///   edges in two trees.
/// - `initial_mode`, `entered_mode`, `no_other_mode`: In the state of a firable set a variable has its init
///   value exactly where no edge that leaves this has its event in the set, and a mode that an edge enters
///   exactly where this edge's event is in the set and that of none that leaves the mode.
pub fn forests<V>()
    ensures one_forest { (sys : System V) (dropped : List ℕ) → IsKeyedStatic sys dropped
        → (ts us : List ModeTree) → IsForest sys dropped ts → IsForest sys dropped us → ts ≡ us }
    ensures tree_edges { (sys : System V) (dropped : List ℕ) → IsKeyedStatic sys dropped
        → (tree : ModeTree) → IsModeTree sys dropped tree → (r : Row)
        → (IsOneOf tree.edges r ↔ IsLive sys dropped r.label tree.variable r.from r.to) }
    ensures forest_trees { (sys : System V) (dropped : List ℕ) → IsKeyedStatic sys dropped
        → (trees : List ModeTree) → IsForest sys dropped trees → AreTrees trees }
    ensures initial_mode { (sys : System V) (dropped : List ℕ) → IsKeyedStatic sys dropped
        → (set : List ℕ) (t : List Value) → IsFirable sys dropped set t → (n : ℕ) (x : Variable V)
        → Stands sys.net.variables n x → x.is_state ≡ true
        → (Stands t n x.value ↔ NoneLeaves sys dropped set n x.value) }
    ensures entered_mode { (sys : System V) (dropped : List ℕ) → IsKeyedStatic sys dropped
        → (set : List ℕ) (t : List Value) → IsFirable sys dropped set t → (n : ℕ) (x : Variable V)
        → Stands sys.net.variables n x → x.is_state ≡ true → (l : Label) (from m : Value)
        → IsLive sys dropped l n from m
        → (Stands t n m ↔ (IsOneOf set l.event × NoneLeaves sys dropped set n m)) }
    ensures no_other_mode { (sys : System V) (dropped : List ℕ) → IsKeyedStatic sys dropped
        → (set : List ℕ) (t : List Value) → IsFirable sys dropped set t → (n : ℕ) (x : Variable V)
        → Stands sys.net.variables n x → x.is_state ≡ true → (m : Value) → Stands t n m
        → (m ≡ x.value)
        ⊎ ((l : Label) × (from : Value) × IsLive sys dropped l n from m × IsOneOf set l.event) }
{}

/// Laws of the order in which the labels of a set, and the sets, are listed.
///
/// - `some_line`, `legal_line`, `one_line`: A firable set has one line, and fires in this order where any order
///   of it does.
/// - `one_listing_of_cuts`, `one_listing_of_conflict_sets`: The cuts of a value are listed in one way, and so
///   are the conflict sets.
/// - `not_before_itself`, `not_both_before`, `before_later`: Sets of events are in a strict order: none is
///   before one with the same members, of two at most one is before the other, and what is before a set is
///   before those after it.
pub fn listings<V>()
    ensures some_line { (sys : System V) (dropped set : List ℕ) (t : List Value)
        → IsFirable sys dropped set t → (ls : List Label) × IsLine sys dropped set ls }
    ensures legal_line { (sys : System V) (dropped : List ℕ) → IsKeyedStatic sys dropped
        → (set : List ℕ) (ls : List Label) → IsLine sys dropped set ls
        → IsLegalOrder sys dropped set (reverse ls) }
    ensures one_line { (sys : System V) (dropped : List ℕ) → IsKeyedStatic sys dropped
        → (set other : List ℕ) (ls ks : List Label) → Within set other → Within other set
        → IsLine sys dropped set ls → IsLine sys dropped other ks → ls ≡ ks }
    ensures one_listing_of_cuts { (sys : System V) (dropped : List ℕ) (observer : Expr V) (wanted : Value)
        (xs ys : List (List ℕ)) → AreListed (Cut sys dropped observer wanted) xs
        → AreListed (Cut sys dropped observer wanted) ys → xs ≡ ys }
    ensures one_listing_of_conflict_sets { (sys : System V) (dropped : List ℕ) (xs ys : List (List ℕ))
        → AreListed (ConflictSet sys dropped) xs → AreListed (ConflictSet sys dropped) ys
        → xs ≡ ys }
    ensures not_before_itself { (s t : List ℕ) → IsBefore s t → Within s t → ⊥ }
    ensures not_both_before { (s t : List ℕ) → IsBefore s t → IsBefore t s → ⊥ }
    ensures before_later { (s t u : List ℕ) → IsBefore s t → IsBefore t u → IsBefore s u }
{}
