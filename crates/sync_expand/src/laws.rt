//! Laws of the ways of declared events.

ghost use Rattle.std.specs.Prelude.{◌≡◌, ◌+◌, ℕ, List, map, length};
ghost use Rattle.ar_base.specs.Breach.{AreKept};
ghost use Rattle.ar_base.specs.Lists.{Stands, Along};
ghost use Rattle.ar_meaning.specs.Systems.{Tree, Way};
ghost use Rattle.ar_meaning.specs.Expand.{EventDeclaration};
ghost use Rattle.ar_meaning.specs.Numbered.{Means_way};
ghost use Rattle.gts_core.specs.Bound.{declared_from};
ghost use Rattle.gts_core.specs.declared.bound.DeclaredEvent.{DeclaredEvent};
ghost use Rattle.sync_expand.specs.Counts.{AreCounts, all_parts};
ghost use Rattle.sync_expand.specs.Expanding.{AreByNumber, AreExpandable, AreWays, BreaksNumberedWayRule};
ghost use Rattle.sync_expand.specs.Counting.{way_parts, way_rules};
ghost use Rattle.sync_expand.specs.Plans.{first_of, planned_ways};
ghost use Rattle.sync_expand.specs.Planned.{IsResolved, all_bodies};

/// Laws of expanded ways.
///
/// - `one_expansion`, `some_expansion`, `numbered_expansion`: Declared events that stand by their numbers have
///   at most one list of ways each. Where no event is reached from one of its own synchronisations, each has
///   one.
/// - `counted_ways`, `counted_parts`: The number of an event's ways is the sum over its transitions and
///   synchronisations, and for a synchronisation the product over its parts; the parts of all ways are told
///   likewise.
/// - `planned_ways_stand`, `planned_bodies`: The number of a way in the plan, which is that of its event's
///   first way and its place among the event's ways, stands for the way; and each way of the plan has the
///   transition at its place, or the numbers of its parts.
pub fn expansion_laws<L>()
    ensures one_expansion { (events : List (EventDeclaration L ℕ)) → AreByNumber events → (a b : List (List (Tree L)))
        → AreWays events a → AreWays events b → a ≡ b }
    ensures some_expansion { (events : List DeclaredEvent) → AreExpandable events
        → AreKept way_rules (BreaksNumberedWayRule events)
        → (ways : List (List (Way ℕ))) × AreWays (declared_from 0 events) ways }
    ensures numbered_expansion { (events : List DeclaredEvent) → AreByNumber (declared_from 0 events) }
    ensures counted_ways { (events : List (EventDeclaration L ℕ)) → AreByNumber events
        → (ways : List (List (Tree L))) → AreWays events ways
        → AreCounts events (map length ways) }
    ensures counted_parts { (events : List (EventDeclaration L ℕ)) → AreByNumber events
        → (ways : List (List (Tree L))) → AreWays events ways
        → way_parts ways ≡ all_parts (map length ways) events }
    ensures planned_ways_stand { (events : List (EventDeclaration L ℕ)) → AreByNumber events
        → (ways : List (List (Tree L))) → AreWays events ways
        → (e k : ℕ) (ts : List (Tree L)) (t : Tree L) → Stands ways e ts → Stands ts k t
        → Means_way (all_bodies (map length ways) events) (first_of (map length ways) e + k) t }
    ensures planned_bodies { (events : List (EventDeclaration L ℕ)) → AreByNumber events → (counts : List ℕ)
        → Along (IsResolved events) (planned_ways counts events) (all_bodies counts events) }
{}
