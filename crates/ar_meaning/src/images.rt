//! A flat system, which has numbers in place of its system's variables, answers as the system does.

ghost use Rattle.std.specs.Prelude.{ℕ, List, ◌≡◌, ◌↔◌, map};
ghost use Rattle.domains.specs.declared.Value.{Value};
ghost use Rattle.ar_base.specs.Lists.{Stands, Along, AreDifferent};
ghost use Rattle.ar_meaning.specs.Systems.{Variable, Net, System, Event, Transition, Way, Tree};
ghost use Rattle.ar_meaning.specs.Facts.{HasValue, FactOf};
ghost use Rattle.ar_meaning.specs.FactsInside.{AreKeyed, AreNumberedVariables};
ghost use Rattle.ar_meaning.specs.Flows.{Flows, Outcome};
ghost use Rattle.ar_meaning.specs.Ways.{Can, Effects};
ghost use Rattle.ar_meaning.specs.Steps.{Step, Answer};
ghost use Rattle.ar_meaning.specs.Runs.{Runs, Command, Moment};
ghost use Rattle.ar_meaning.specs.TraceText.{Naming, TraceText};
ghost use Rattle.ar_meaning.specs.Expand.{EventDeclaration, Ways, LeadsBack, IsExpanded};
ghost use Rattle.ar_meaning.specs.ExpandInside.{AreKeyedEvents as HaveKeys};
ghost use Rattle.ar_meaning.specs.ExpandImage.{Declared_along, Declared_renames};
ghost use Rattle.ar_meaning.specs.Image.{Way_renames, Event_renames};
ghost use Rattle.ar_meaning.specs.ImageInside.{IsImage};
ghost use Rattle.ar_meaning.specs.FlatOf.{IsNumber, IsFlatOf};
ghost use Rattle.ar_meaning.specs.FlatOfInside.{AreFlatOf, NameAlike};
ghost use Rattle.ar_meaning.specs.Numbered.{Body, Means_way};
ghost use Rattle.ar_meaning.specs.NumberedInside.{body_changed, changed};

/// Laws of a flat system and the system that it is of.
///
/// - `facts`, `flows`, `flat_ways`, `effects`, `steps`, `runs`, `texts`, `flat_keys`, `numbers`: A flat system
///   has the facts, flows, ways that can fire, effects, steps, runs and texts of its system, and no others.
/// - `declared_ways`, `declared_ways_back`, `declared_events`, `declared_events_back`, `declared_leads_back`,
///   `declared_keys`: Flat declared events have the ways, events of a system and ways back to themselves of
///   their declared events, and no others.
/// - `copied_systems`, `copied_declarations`: A copy of a flat system, item by item, is a flat system of the
///   same system; so are copied declared events.
pub fn flat_systems<V, E>()
    ensures facts { (things : List V) (sys : System V) (flat : System ℕ) → IsFlatOf things sys flat
        → (t : List Value) (x : V) (n : ℕ) (v : Value) → Stands things n x
        → (FactOf sys.net t x v ↔ FactOf flat.net t n v) }
    ensures flows { (things : List V) (sys : System V) (flat : System ℕ) → IsFlatOf things sys flat
        → (t : List Value) (o : Outcome) → (Flows sys.net t o ↔ Flows flat.net t o) }
    ensures flat_ways { (things : List V) (sys : System V) (flat : System ℕ) → IsFlatOf things sys flat
        → (t : List Value) (v : Way V) (w : Way ℕ) → Way_renames (IsNumber things) v w
        → (Can (HasValue sys.net t) v ↔ Can (HasValue flat.net t) w) }
    ensures effects { (things : List V) (sys : System V) (flat : System ℕ)
        → IsFlatOf things sys flat → (t : List Value) (v : Way V) (w : Way ℕ)
        → Way_renames (IsNumber things) v w → (x : V) (n : ℕ) (d : Value) → Stands things n x
        → (Effects (HasValue sys.net t) v x d ↔ Effects (HasValue flat.net t) w n d) }
    ensures steps { (things : List V) (sys : System V) (flat : System ℕ) → IsFlatOf things sys flat
        → (t : List Value) (v : Way V) (w : Way ℕ) → Way_renames (IsNumber things) v w
        → (a : Answer) → (Step sys.net t v a ↔ Step flat.net t w a) }
    ensures runs { (things : List V) (sys : System V) (flat : System ℕ) → IsFlatOf things sys flat
        → (cs : List Command) (ms : List Moment) → (Runs sys cs ms ↔ Runs flat cs ms) }
    ensures texts { (things : List V) (sys : System V) (flat : System ℕ) → IsFlatOf things sys flat
        → (names numbers : Naming) → NameAlike names numbers → (ms : List Moment) (text : List ℕ)
        → (TraceText names sys ms text ↔ TraceText numbers flat ms text) }
    ensures flat_keys { (things : List V) (sys : System V) (flat : System ℕ) → IsFlatOf things sys flat
        → (AreKeyed sys.net ↔ AreKeyed flat.net) }
    ensures numbers { (things : List V) (sys : System V) (flat : System ℕ)
        → IsFlatOf things sys flat
        → ((n : ℕ) (x : Variable V) → Stands sys.net.variables n x → Stands things n x.key)
        ↔ AreNumberedVariables flat.net }
    ensures declared_ways { (things : List V) (keys : List E) (ds : List (EventDeclaration (Transition V) E))
        (es : List (EventDeclaration (Transition ℕ) ℕ)) → AreFlatOf things keys ds es → (e : E) (n : ℕ)
        → Stands keys n e → (vs : List (Way V)) → Ways ds e vs
        → (ws : List (Way ℕ)) × Ways es n ws × Along (Way_renames (IsNumber things)) vs ws }
    ensures declared_ways_back { (things : List V) (keys : List E) (ds : List (EventDeclaration (Transition V) E))
        (es : List (EventDeclaration (Transition ℕ) ℕ)) → AreFlatOf things keys ds es → (e : E) (n : ℕ)
        → Stands keys n e → (ws : List (Way ℕ)) → Ways es n ws
        → (vs : List (Way V)) × Ways ds e vs × Along (Way_renames (IsNumber things)) vs ws }
    ensures declared_events { (things : List V) (keys : List E) (ds : List (EventDeclaration (Transition V) E))
        (es : List (EventDeclaration (Transition ℕ) ℕ)) → AreFlatOf things keys ds es
        → (vs : List (Event V)) → Along (IsExpanded ds) ds vs → (ws : List (Event ℕ))
        × Along (IsExpanded es) es ws × Along (Event_renames (IsNumber things)) vs ws }
    ensures declared_events_back { (things : List V) (keys : List E) (ds : List (EventDeclaration (Transition V) E))
        (es : List (EventDeclaration (Transition ℕ) ℕ)) → AreFlatOf things keys ds es
        → (ws : List (Event ℕ)) → Along (IsExpanded es) es ws → (vs : List (Event V))
        × Along (IsExpanded ds) ds vs × Along (Event_renames (IsNumber things)) vs ws }
    ensures declared_leads_back { (things : List V) (keys : List E) (ds : List (EventDeclaration (Transition V) E))
        (es : List (EventDeclaration (Transition ℕ) ℕ)) → AreFlatOf things keys ds es → (e : E) (n k : ℕ)
        → Stands keys n e → (LeadsBack ds e k ↔ LeadsBack es n k) }
    ensures declared_keys { (things : List V) (keys : List E) (ds : List (EventDeclaration (Transition V) E))
        (es : List (EventDeclaration (Transition ℕ) ℕ)) → AreFlatOf things keys ds es
        → (HaveKeys ds ↔ HaveKeys es) }
    ensures copied_systems { (things : List V) (sys : System V) (flat other : System ℕ)
        → IsFlatOf things sys flat → IsImage (λ m n. m ≡ n) flat other → IsFlatOf things sys other }
    ensures copied_declarations { (things : List V) (keys : List E) (ds : List (EventDeclaration (Transition V) E))
        (es fs : List (EventDeclaration (Transition ℕ) ℕ)) → AreFlatOf things keys ds es
        → Along (Declared_renames (λ m n. m ≡ n) (λ m n. m ≡ n)) es fs
        → AreFlatOf things keys ds fs }
{}

/// Laws of ways whose transitions, or leaves, are changed.
///
/// - `mapped_ways`, `mapped_ways_back`, `mapped_leads_back`: Declared events whose transitions are mapped, with
///   each key's number in its place, have the mapped ways, and no others.
/// - `changed_leaves`: Numbers stand for the same ways, whatever stands in the ways' leaves.
pub fn mapped_ways<L, M, E>()
    ensures mapped_ways { (f : L → M) (keys : List E) (ds : List (EventDeclaration L E)) (es : List (EventDeclaration M ℕ))
        → AreDifferent keys → Along (Declared_along (λ l m. f l ≡ m) (IsNumber keys)) ds es
        → (e : E) (n : ℕ) → Stands keys n e → (ts : List (Tree L)) → Ways ds e ts
        → Ways es n (map (changed f) ts) }
    ensures mapped_ways_back { (f : L → M) (keys : List E) (ds : List (EventDeclaration L E))
        (es : List (EventDeclaration M ℕ))
        → AreDifferent keys → Along (Declared_along (λ l m. f l ≡ m) (IsNumber keys)) ds es
        → (e : E) (n : ℕ) → Stands keys n e → (us : List (Tree M)) → Ways es n us
        → (ts : List (Tree L)) × Ways ds e ts × (us ≡ map (changed f) ts) }
    ensures mapped_leads_back { (f : L → M) (keys : List E) (ds : List (EventDeclaration L E))
        (es : List (EventDeclaration M ℕ))
        → AreDifferent keys → Along (Declared_along (λ l m. f l ≡ m) (IsNumber keys)) ds es
        → (e : E) (n k : ℕ) → Stands keys n e → (LeadsBack ds e k ↔ LeadsBack es n k) }
    ensures changed_leaves { (f : L → M) (bodies : List (Body L)) (n : ℕ) (t : Tree L) → Means_way bodies n t
        → Means_way (map (body_changed f) bodies) n (changed f t) }
{}
