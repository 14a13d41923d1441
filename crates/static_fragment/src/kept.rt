//! The kept ways and the third rule.

ghost use Rattle.std.specs.Prelude.{ℕ, List};
ghost use Rattle.ar_meaning.specs.Systems.{System};
ghost use Rattle.ar_firing.specs.Rules.{KeepsS1, KeepsS2, KeepsS3, BreaksS3};
ghost use Rattle.gts_core.specs.declared.system.GtsParts.{GtsParts};
ghost use Rattle.mode_search.specs.Kept.{OtherInGuard};
ghost use Rattle.mode_search.specs.declared.kept.KeptWay.{KeptWay};
ghost use Rattle.static_fragment.specs.Setting.{AreKeptWays};
ghost use Rattle.static_fragment.specs.Kept.{KeptWaysAreWays, WaysAreKept};

/// Laws of the ways that are kept, and of guards.
///
/// - `kept_ways`, `all_kept_ways`: Each kept way is a way of an event that is not dropped, with its mode
///   variable; and where the first two rules are kept, each way of such an event is one of the kept ways.
/// - `guard_breaks`, `guard_broken`, `guards_keep`: The least mode variable of a way whose guard names another
///   is the one that the third rule is shown with, and where there is none, the rule is kept.
pub fn kept_laws()
    ensures kept_ways { (p : GtsParts) (system : System ℕ) (dropped : List ℕ) (kept : List KeptWay)
        → AreKeptWays p system dropped kept → KeptWaysAreWays p system dropped kept }
    ensures all_kept_ways { (p : GtsParts) (system : System ℕ) (dropped : List ℕ) (kept : List KeptWay)
        → AreKeptWays p system dropped kept → WaysAreKept p system dropped kept }
    ensures guard_breaks { (p : GtsParts) (system : System ℕ) (dropped : List ℕ) (kept : List KeptWay)
        → AreKeptWays p system dropped kept → (n : ℕ) → OtherInGuard kept n
        → BreaksS3 system dropped n }
    ensures guard_broken { (p : GtsParts) (system : System ℕ) (dropped : List ℕ) (kept : List KeptWay)
        → AreKeptWays p system dropped kept → KeepsS1 system → KeepsS2 system dropped
        → (n : ℕ) → BreaksS3 system dropped n → OtherInGuard kept n }
    ensures guards_keep { (p : GtsParts) (system : System ℕ) (dropped : List ℕ) (kept : List KeptWay)
        → AreKeptWays p system dropped kept → KeepsS1 system → KeepsS2 system dropped
        → ((n : ℕ) → OtherInGuard kept n → ⊥) → KeepsS3 system dropped }
{}
