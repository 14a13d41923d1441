//! What the variables reach, and the fourth rule.

ghost use Rattle.std.specs.Prelude.{ℕ, ◌⊎◌, List, map};
ghost use Rattle.ar_base.specs.Lists.{Stands, IsOneOf};
ghost use Rattle.ar_meaning.specs.Systems.{System};
ghost use Rattle.ar_firing.specs.Rules.{KeepsS1, KeepsS2, KeepsS4, BreaksS4};
ghost use Rattle.gts_core.specs.declared.system.GtsParts.{GtsParts};
ghost use Rattle.mode_search.specs.Kept.{OtherInAction};
ghost use Rattle.mode_search.specs.declared.kept.KeptWay.{KeptWay};
ghost use Rattle.mode_search.specs.declared.searching.Reach.{Reach};
ghost use Rattle.mode_search.specs.Reaches.{IsWrongAt};
ghost use Rattle.static_fragment.specs.Setting.{AreKeptWays, AreReached};
ghost use Rattle.static_fragment.specs.Reaching.{EdgesAreLive, LiveAreEdges, ModesAreReached, ReachedAreModes};

/// Laws of live edges, and of actions.
///
/// - `edges_live`, `modes_live`, `live_edges`, `modes_reached`: The edges of what a variable reaches are live
///   edges of it; where the first two rules are kept, they are its live edges, and the modes that it reaches
///   are those that are reached.
/// - `action_names`, `action_wrong`, `action_broken`, `actions_keep`: The mode variable of a way whose action
///   names another variable, or of one that is wrong at a mode that is reached, is one that the fourth rule is
///   shown with, and each such is one of these.
pub fn edge_laws()
    ensures edges_live { (p : GtsParts) (system : System ℕ) (dropped : List ℕ) (kept : List KeptWay)
        (reaches : List Reach) → AreReached p system dropped kept reaches
        → EdgesAreLive p system dropped reaches }
    ensures modes_live { (p : GtsParts) (system : System ℕ) (dropped : List ℕ) (kept : List KeptWay)
        (reaches : List Reach) → AreReached p system dropped kept reaches
        → ModesAreReached p system dropped reaches }
    ensures live_edges { (p : GtsParts) (system : System ℕ) (dropped : List ℕ) (kept : List KeptWay)
        (reaches : List Reach) → AreReached p system dropped kept reaches
        → KeepsS1 system → KeepsS2 system dropped → LiveAreEdges p system dropped reaches }
    ensures modes_reached { (p : GtsParts) (system : System ℕ) (dropped : List ℕ) (kept : List KeptWay)
        (reaches : List Reach) → AreReached p system dropped kept reaches
        → KeepsS1 system → KeepsS2 system dropped → ReachedAreModes p system dropped reaches }
    ensures action_names { (p : GtsParts) (system : System ℕ) (dropped : List ℕ) (kept : List KeptWay)
        → AreKeptWays p system dropped kept → (n : ℕ) → OtherInAction kept n
        → BreaksS4 system dropped n }
    ensures action_wrong { (p : GtsParts) (system : System ℕ) (dropped : List ℕ) (kept : List KeptWay)
        (reaches : List Reach) → AreReached p system dropped kept reaches
        → (n : ℕ) → IsWrongAt reaches n → BreaksS4 system dropped n }
    ensures action_broken { (p : GtsParts) (system : System ℕ) (dropped : List ℕ) (kept : List KeptWay)
        (reaches : List Reach) → AreReached p system dropped kept reaches
        → KeepsS1 system → KeepsS2 system dropped
        → (n : ℕ) → BreaksS4 system dropped n → (OtherInAction kept n ⊎ IsWrongAt reaches n) }
    ensures actions_keep { (p : GtsParts) (system : System ℕ) (dropped : List ℕ) (kept : List KeptWay)
        (reaches : List Reach) → AreReached p system dropped kept reaches
        → KeepsS1 system → KeepsS2 system dropped → ((n : ℕ) → OtherInAction kept n → ⊥)
        → ((n : ℕ) → IsWrongAt reaches n → ⊥) → KeepsS4 system dropped }
{}
