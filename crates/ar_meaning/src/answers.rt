//! One answer each.

ghost use Rattle.std.specs.Prelude.{ℕ, List, ◌≡◌, length};
ghost use Rattle.ar_base.specs.Lists.{Along};
ghost use Rattle.domains.specs.declared.Value.{Value};
ghost use Rattle.ar_meaning.specs.Systems.{Net, System, Event, Transition, Way, Tree};
ghost use Rattle.ar_meaning.specs.FactsInside.{AreKeyed};
ghost use Rattle.ar_meaning.specs.Flows.{Flows, Outcome};
ghost use Rattle.ar_meaning.specs.Steps.{Step, Answer};
ghost use Rattle.ar_meaning.specs.Runs.{Runs, Command, Moment};
ghost use Rattle.ar_meaning.specs.RunsInside.{FiresWays};
ghost use Rattle.ar_meaning.specs.FoundInside.{AreTold};
ghost use Rattle.ar_meaning.specs.Expand.{EventDeclaration, Ways, IsExpanded};
ghost use Rattle.ar_meaning.specs.ExpandInside.{AreKeyedEvents as HaveKeys};
ghost use Rattle.ar_meaning.specs.TraceText.{Naming, TraceText};
ghost use Rattle.ar_meaning.specs.Numbered.{Body, Means_way};

/// Laws that say of what there is at most one.
///
/// - `one_outcome`, `one_answer`, `one_run`: A state has at most one outcome of its flows, firing a way at most
///   one answer, and a list of commands at most one list of moments.
/// - `one_list_of_ways`, `one_way_of_number`: Where no two events have one key, an event has at most one list
///   of ways. A number stands for at most one way.
/// - `one_list_of_events`: Declared events, no two of which have one key, make at most one list of events of a
///   system.
/// - `one_text`, `one_text_of_commands`: Where no two variables have one key, moments have at most one text,
///   and a list of commands at most one.
pub fn at_most_one<V, L, E>()
    ensures one_outcome { (net : Net V) (t : List Value) (o p : Outcome) → Flows net t o → Flows net t p
        → o ≡ p }
    ensures one_answer { (net : Net V) (t : List Value) (w : Way V) (a b : Answer) → Step net t w a
        → Step net t w b → a ≡ b }
    ensures one_run { (sys : System V) (cs : List Command) (ms ns : List Moment) → Runs sys cs ms
        → Runs sys cs ns → ms ≡ ns }
    ensures one_list_of_ways { (events : List (EventDeclaration L E)) → HaveKeys events
        → (e : E) (ts us : List (Tree L)) → Ways events e ts → Ways events e us → ts ≡ us }
    ensures one_way_of_number { (bodies : List (Body L)) (n : ℕ) (t u : Tree L) → Means_way bodies n t
        → Means_way bodies n u → t ≡ u }
    ensures one_list_of_events { (events : List (EventDeclaration (Transition V) E)) → HaveKeys events
        → (es fs : List (Event V)) → Along (IsExpanded events) events es
        → Along (IsExpanded events) events fs → es ≡ fs }
    ensures one_text { (names : Naming) (sys : System V) → AreKeyed sys.net
        → (ms : List Moment) (a b : List ℕ) → TraceText names sys ms a → TraceText names sys ms b
        → a ≡ b }
    ensures one_text_of_commands { (names : Naming) (sys : System V) → AreKeyed sys.net
        → (cs : List Command) (ms ns : List Moment) (a b : List ℕ) → Runs sys cs ms → Runs sys cs ns
        → TraceText names sys ms a → TraceText names sys ns b → a ≡ b }
{}

/// Laws that say of what there is at least one.
///
/// - `some_outcome`, `some_outcome_by_number`: Each list of values of the right length has an outcome of its
///   flows, where it can be told whether two keys are one; numbers are such keys.
/// - `some_answer`, `some_run`, `some_answer_by_number`, `some_run_by_number`: Where it can be told whether two
///   keys are one, firing a way from a list of values of the right length has an answer, and a list of commands
///   that fire ways of the system has its moments. Numbers are such keys.
pub fn at_least_one<V>()
    ensures some_outcome { AreTold V → (net : Net V) (t : List Value) → length t ≡ length net.variables
        → (o : Outcome) × Flows net t o }
    ensures some_outcome_by_number { (net : Net ℕ) (t : List Value) → length t ≡ length net.variables
        → (o : Outcome) × Flows net t o }
    ensures some_answer { AreTold V → (net : Net V) (t : List Value) (w : Way V)
        → length t ≡ length net.variables → (a : Answer) × Step net t w a }
    ensures some_run { AreTold V → (sys : System V) (cs : List Command) → FiresWays sys cs
        → (ms : List Moment) × Runs sys cs ms }
    ensures some_answer_by_number { (net : Net ℕ) (t : List Value) (w : Way ℕ)
        → length t ≡ length net.variables → (a : Answer) × Step net t w a }
    ensures some_run_by_number { (sys : System ℕ) (cs : List Command) → FiresWays sys cs
        → (ms : List Moment) × Runs sys cs ms }
{}
