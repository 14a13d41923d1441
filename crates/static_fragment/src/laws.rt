//! Laws of events, units and values.

ghost use Rattle.std.specs.Prelude.{◌≡◌, ◌↔◌, ℕ, Bool, List, length, Option};
ghost use Rattle.ar_base.specs.Lists.{Stands};
ghost use Rattle.ar_base.specs.Numbers.{VarId};
ghost use Rattle.ar_meaning.specs.Systems.{System};
ghost use Rattle.ar_firing.specs.Forest.{HasTransitions, IsModeVariable};
ghost use Rattle.ar_firing.specs.Rules.{KeepsS1, BreaksS1, KeepsS2, BreaksS2};
ghost use Rattle.ar_firing.specs.Rules.{KeepsS7, BreaksS7, ObserverBreaksS7};
ghost use Rattle.ar_firing.specs.Rules.{S1, S2, S7, AtEvent, AtUnit};
ghost use Rattle.gts_core.specs.View.{Views};
ghost use Rattle.gts_core.specs.Sound.{IsSound};
ghost use Rattle.gts_core.specs.declared.system.Variable.{Variable};
ghost use Rattle.gts_core.specs.declared.system.GtsParts.{GtsParts};
ghost use Rattle.mode_search.specs.Events.{IsLeastNumber, IsJointAt, AreMarks, AreMoving};
ghost use Rattle.mode_search.specs.Events.{MovesUnit, IsStateless};
ghost use Rattle.mode_search.specs.Wide.{IsWideFlow, IsWideObserver, IsFirstWide};
ghost use Rattle.mode_search.specs.declared.searches.Wide.{Wide};
ghost use Rattle.static_fragment.specs.Units.{AreUnitMarks, IsMovingState};
ghost use Rattle.static_fragment.specs.UnitShown.{IsFirstShown, spot_of_wide};

/// Laws of the events, units, modes and values of which a rule is broken.
///
/// - `joint_breaks`, `joint_keeps`, `joint_first`: The events with a synchronised way are those of which one of
///   the ways has parts, and where there is none the first rule is kept. The least of them is the first that it
///   is shown with.
/// - `units_with_transitions`: The units with transitions are those of which an event that is not marked has a
///   way.
/// - `stateless_breaks`, `stateless_keeps`, `stateless_first`: The units with transitions and no state variable
///   are those that move and have no first one, and where there is none the second rule is kept. The least of
///   them is the first that it is shown with.
/// - `mode_variables`, `first_modes`: The mode variables are the state variables of the units that move, and
///   each begins with its value.
/// - `wide_flows`, `wide_flows_back`, `wide_observers`, `wide_keeps`, `wide_first`: The flows and observers
///   with too many possible values are those that break the seventh rule, and where there is none it is kept.
///   What the search finds is the first that it is shown with.
pub fn event_laws()
    ensures joint_breaks { (p : GtsParts) (system : System ℕ) → Views p system → (n : ℕ)
        → (IsJointAt p n ↔ BreaksS1 system n) }
    ensures joint_keeps { (p : GtsParts) (system : System ℕ) → Views p system
        → ((n : ℕ) → IsJointAt p n → ⊥) → KeepsS1 system }
    ensures joint_first { (p : GtsParts) (system : System ℕ) (dropped : List ℕ) → Views p system → (n : ℕ)
        → IsLeastNumber (IsJointAt p) (Some n) → IsFirstShown system dropped S1 (AtEvent n) }
    ensures units_with_transitions { (p : GtsParts) (system : System ℕ) (dropped : List ℕ) (marks : List Bool)
        → Views p system → AreMarks (length p.events.items) dropped marks → (unit : ℕ)
        → (HasTransitions system dropped unit ↔ MovesUnit p marks (length p.events.items) unit) }
    ensures stateless_breaks { (p : GtsParts) (system : System ℕ) (dropped : List ℕ)
        (marks moving : List Bool) (firsts : List (Option VarId)) → Views p system → IsSound p
        → AreUnitMarks p dropped marks moving firsts → (unit : ℕ)
        → (IsStateless moving firsts unit ↔ BreaksS2 system dropped unit) }
    ensures stateless_keeps { (p : GtsParts) (system : System ℕ) (dropped : List ℕ)
        (marks moving : List Bool) (firsts : List (Option VarId)) → Views p system → IsSound p
        → AreUnitMarks p dropped marks moving firsts
        → ((unit : ℕ) → IsStateless moving firsts unit → ⊥) → KeepsS2 system dropped }
    ensures stateless_first { (p : GtsParts) (system : System ℕ) (dropped : List ℕ)
        (marks moving : List Bool) (firsts : List (Option VarId)) → Views p system → IsSound p
        → AreUnitMarks p dropped marks moving firsts → (unit : ℕ)
        → IsLeastNumber (IsStateless moving firsts) (Some unit)
        → IsFirstShown system dropped S2 (AtUnit unit) }
    ensures mode_variables { (p : GtsParts) (system : System ℕ) (dropped : List ℕ)
        (marks moving : List Bool) → Views p system → IsSound p
        → AreMarks (length p.events.items) dropped marks
        → AreMoving p marks (length p.events.items) moving → (n : ℕ)
        → (IsMovingState p moving n ↔ IsModeVariable system dropped n) }
    ensures first_modes { (p : GtsParts) (system : System ℕ) (dropped : List ℕ) → Views p system
        → (n : ℕ) (m : IsModeVariable system dropped n) (x : Variable)
        → Stands p.variables.items n x → m.variable.value ≡ x.value }
    ensures wide_flows { (p : GtsParts) (system : System ℕ) → Views p system → IsSound p
        → (count n : ℕ) → IsWideFlow p count n → BreaksS7 system n }
    ensures wide_flows_back { (p : GtsParts) (system : System ℕ) → Views p system → (n : ℕ)
        → BreaksS7 system n → (count : ℕ) × IsWideFlow p count n }
    ensures wide_observers { (p : GtsParts) (system : System ℕ) → Views p system → (n : ℕ)
        → (IsWideObserver p n ↔ ObserverBreaksS7 system n) }
    ensures wide_keeps { (p : GtsParts) (system : System ℕ) → Views p system → IsFirstWide p None
        → KeepsS7 system }
    ensures wide_first { (p : GtsParts) (system : System ℕ) (dropped : List ℕ) → Views p system
        → IsSound p → (found : Wide) → IsFirstWide p (Some found)
        → IsFirstShown system dropped S7 (spot_of_wide found) }
{}
