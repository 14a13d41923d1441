//! What the live edges share, and the last rules.

ghost use Rattle.std.specs.Prelude.{ℕ, ◌<◌, ◌≤◌, List, length};
ghost use Rattle.ar_meaning.specs.Systems.{System};
ghost use Rattle.ar_firing.specs.Rules.{KeepsS1, KeepsS2, KeepsS5, BreaksS5, KeepsS6, BreaksS6, KeepsS8, BreaksS8};
ghost use Rattle.gts_core.specs.declared.system.GtsParts.{GtsParts};
ghost use Rattle.mode_search.specs.declared.kept.KeptWay.{KeptWay};
ghost use Rattle.mode_search.specs.declared.searching.Reach.{Reach};
ghost use Rattle.mode_search.specs.Reaches.{IsAgainAt};
ghost use Rattle.mode_search.specs.Sharing.{IsShared, IsSharing};
ghost use Rattle.mode_search.specs.declared.listing.Live.{Live};
ghost use Rattle.mode_search.specs.declared.sharing.Sharing.{Sharing};
ghost use Rattle.static_fragment.specs.Setting.{AreReached, AreLiveEdges};

/// Laws of events and modes that edges share.
///
/// - `sharing_breaks`, `sharing_broken`, `sharing_keeps`: Where the first two rules are kept, the variable of
///   the first live edge of an event that has two is one that the fifth rule is shown with, and each such is
///   one of these.
/// - `entering_breaks`, `entering_broken`, `entering_keeps`: A variable of which an edge enters a mode again is
///   one that the sixth rule is shown with; where the first two rules are kept, each such is one of these, also
///   that of an edge that stays.
/// - `counted_breaks`, `counted_keeps`: The eighth rule is broken where more than 2,048 events have a live
///   edge, and kept where no more than these have one, the first two rules being kept.
pub fn edge_sharing_laws()
    ensures sharing_breaks { (p : GtsParts) (system : System ℕ) (dropped : List ℕ) (kept : List KeptWay)
        (reaches : List Reach) (live : List Live) → AreLiveEdges p system dropped kept reaches live
        → KeepsS1 system → KeepsS2 system dropped
        → (n : ℕ) → IsShared live (length live) n → BreaksS5 system dropped n }
    ensures sharing_broken { (p : GtsParts) (system : System ℕ) (dropped : List ℕ) (kept : List KeptWay)
        (reaches : List Reach) (live : List Live) → AreLiveEdges p system dropped kept reaches live
        → KeepsS1 system → KeepsS2 system dropped
        → (n : ℕ) → BreaksS5 system dropped n → IsShared live (length live) n }
    ensures sharing_keeps { (p : GtsParts) (system : System ℕ) (dropped : List ℕ) (kept : List KeptWay)
        (reaches : List Reach) (live : List Live) → AreLiveEdges p system dropped kept reaches live
        → KeepsS1 system → KeepsS2 system dropped
        → ((n : ℕ) → IsShared live (length live) n → ⊥) → KeepsS5 system dropped }
    ensures entering_breaks { (p : GtsParts) (system : System ℕ) (dropped : List ℕ) (kept : List KeptWay)
        (reaches : List Reach) → AreReached p system dropped kept reaches
        → (n : ℕ) → IsAgainAt reaches n → BreaksS6 system dropped n }
    ensures entering_broken { (p : GtsParts) (system : System ℕ) (dropped : List ℕ) (kept : List KeptWay)
        (reaches : List Reach) → AreReached p system dropped kept reaches
        → KeepsS1 system → KeepsS2 system dropped
        → (n : ℕ) → BreaksS6 system dropped n → IsAgainAt reaches n }
    ensures entering_keeps { (p : GtsParts) (system : System ℕ) (dropped : List ℕ) (kept : List KeptWay)
        (reaches : List Reach) → AreReached p system dropped kept reaches
        → KeepsS1 system → KeepsS2 system dropped
        → ((n : ℕ) → IsAgainAt reaches n → ⊥) → KeepsS6 system dropped }
    ensures counted_breaks { (p : GtsParts) (system : System ℕ) (dropped : List ℕ) (kept : List KeptWay)
        (reaches : List Reach) (live : List Live) → AreLiveEdges p system dropped kept reaches live
        → (count : ℕ) (s : Sharing) → IsSharing count live (length live) s
        → 2048 < length s.events.items → BreaksS8 system dropped }
    ensures counted_keeps { (p : GtsParts) (system : System ℕ) (dropped : List ℕ) (kept : List KeptWay)
        (reaches : List Reach) (live : List Live) → AreLiveEdges p system dropped kept reaches live
        → KeepsS1 system → KeepsS2 system dropped
        → (count : ℕ) (s : Sharing) → IsSharing count live (length live) s
        → length s.events.items ≤ 2048 → KeepsS8 system dropped }
{}
