//! What fires in a static system, and in which orders.

ghost use Rattle.std.specs.Prelude.{ℕ, List, [], ◌∷◌, ◌++◌, ◌≡◌, ◌↔◌, ◌⊎◌, map, reverse, length};
ghost use Rattle.ar_base.specs.Lists.{Stands};
ghost use Rattle.domains.specs.declared.Value.{Value};
ghost use Rattle.ar_meaning.specs.Systems.{System, Way};
ghost use Rattle.ar_meaning.specs.Facts.{HasValue};
ghost use Rattle.ar_meaning.specs.FoundInside.{AreTold};
ghost use Rattle.ar_meaning.specs.Flows.{Flows, FlowFault, Fails};
ghost use Rattle.ar_meaning.specs.Ways.{Can};
ghost use Rattle.ar_meaning.specs.Steps.{Step, Answer};
ghost use Rattle.ar_meaning.specs.Runs.{Label, Moment, Runs, Fire, Starts};
ghost use Rattle.ar_firing.specs.Fragment.{Edge, IsOpen};
ghost use Rattle.ar_firing.specs.Static.{IsKeyedStatic};
ghost use Rattle.ar_firing.specs.Cuts.{Reaches, Conflicts, HasOrder, IsFirable, IsConflictFree};
ghost use Rattle.ar_firing.specs.CutsInside.{IsLegalOrder, MovesTo};
ghost use Rattle.ar_base.specs.Sets.{Within};
ghost use Rattle.ar_firing.specs.Operands.{HasFlows, HasFault};
ghost use Rattle.ar_firing.specs.Replays.{AreOpen, AllFire, FailsLast};

/// Laws of firing orders, and of the sets that have them.
///
/// - `static_fires`, `meets`, `can_fire`, `no_other_can`, `steps`, `one_end`: What fires without fault up to
///   its last label, and fires there or meets a flow fault there, is a firable set in its state, in any order
///   of its events. At a firable set just the edges that leave the modes of its state can fire.
/// - `goes_on`, `legal_orders_fire`: In a legal order of a firable set the next label can fire as long as no
///   flow fault was met, and none is met where the firable sets of the events so far have flows.
/// - `firable`, `order`, `told`, `numbers`: Where no set meets a conflict the sets with an order are exactly
///   the firable sets: where the flows of each firable set are known to be there or a fault, where it can be
///   told whether two keys are one, and so of numbers.
/// - `replays`, `reaches`, `conflict_replays`, `undropped`: Labels fire without fault exactly where the script
///   that fires them, and nothing else, has no fault, and what meets a conflict meets its flow fault in the run
///   of its script. What fires with events dropped fires without dropping any.
pub fn order_laws<V>()
    ensures static_fires { (sys : System V) (dropped : List ℕ) → IsKeyedStatic sys dropped
        → (ls : List Label) (t : List Value) → Reaches sys dropped ls t
        → IsFirable sys dropped (map (λ l. l.event) ls) t }
    ensures meets { (sys : System V) (dropped : List ℕ) → IsKeyedStatic sys dropped
        → (ls : List Label) (f : FlowFault) → Conflicts sys dropped ls f → (t : List Value)
        × Flows sys.net t (Fails f) × IsFirable sys dropped (map (λ l. l.event) ls) t }
    ensures can_fire { (sys : System V) (dropped : List ℕ) → IsKeyedStatic sys dropped
        → (set : List ℕ) (t : List Value) → IsFirable sys dropped set t
        → (l : Label) (n : ℕ) (from to : Value) (e : Edge sys dropped l n from to) → Stands t n from
        → Can (HasValue sys.net t) e.way }
    ensures no_other_can { (sys : System V) (dropped : List ℕ) → IsKeyedStatic sys dropped
        → (set : List ℕ) (t : List Value) → IsFirable sys dropped set t → (l : Label) (w : Way V)
        → IsOpen sys dropped l w → Can (HasValue sys.net t) w
        → (n : ℕ) × (from : Value) × (to : Value) × Stands t n from × Edge sys dropped l n from to }
    ensures steps { (sys : System V) (dropped : List ℕ) → IsKeyedStatic sys dropped
        → (set : List ℕ) (t : List Value) → IsFirable sys dropped set t → (l : Label) (w : Way V)
        → IsOpen sys dropped l w → Can (HasValue sys.net t) w → (a : Answer) → Step sys.net t w a
        → (new : List Value) × IsFirable sys dropped (l.event ∷ set) new × MovesTo sys.net new a }
    ensures one_end { (sys : System V) (dropped : List ℕ) → IsKeyedStatic sys dropped
        → (ls ks : List Label) (t u : List Value) → Reaches sys dropped ls t
        → Reaches sys dropped ks u → Within (map (λ l. l.event) ls) (map (λ l. l.event) ks)
        → Within (map (λ l. l.event) ks) (map (λ l. l.event) ls) → t ≡ u }
    ensures goes_on { (sys : System V) (dropped : List ℕ) → IsKeyedStatic sys dropped
        → (set : List ℕ) (t : List Value) (later : List Label) (l : Label) (before : List Label)
        → IsLegalOrder sys dropped set (later ++ (l ∷ before)) → Reaches sys dropped before t
        → (n : ℕ) × (from : Value) × (to : Value) × (e : Edge sys dropped l n from to)
        × Can (HasValue sys.net t) e.way }
    ensures legal_orders_fire { (sys : System V) (dropped : List ℕ) → IsKeyedStatic sys dropped
        → (set : List ℕ) (ls : List Label) → IsLegalOrder sys dropped set ls
        → ((part : List ℕ) (t : List Value) → IsFirable sys dropped part t → Within part set
        → HasFlows sys.net t)
        → (t : List Value) × Reaches sys dropped ls t }
    ensures firable { (sys : System V) (dropped : List ℕ) → IsKeyedStatic sys dropped
        → (set : List ℕ) (t : List Value) → HasOrder sys dropped set t
        → IsFirable sys dropped set t }
    ensures order { (sys : System V) (dropped : List ℕ) → IsKeyedStatic sys dropped
        → IsConflictFree sys dropped
        → ((set : List ℕ) (t : List Value) → IsFirable sys dropped set t
        → HasFlows sys.net t ⊎ HasFault sys.net t)
        → (set : List ℕ) (t : List Value) → IsFirable sys dropped set t
        → (u : List Value) × HasOrder sys dropped set u }
    ensures told { AreTold V → (sys : System V) (dropped : List ℕ) → IsKeyedStatic sys dropped
        → IsConflictFree sys dropped → (set : List ℕ) (t : List Value) → IsFirable sys dropped set t
        → (u : List Value) × HasOrder sys dropped set u }
    ensures numbers { (sys : System ℕ) (dropped : List ℕ) → IsKeyedStatic sys dropped
        → IsConflictFree sys dropped → (set : List ℕ) (t : List Value) → IsFirable sys dropped set t
        → (u : List Value) × HasOrder sys dropped set u }
    ensures replays { (sys : System V) (dropped : List ℕ) (ls : List Label) (u : List Value)
        → Reaches sys dropped (reverse ls) u → AreOpen sys dropped ls
        × ((t : List Value) × (ms : List Moment) × Runs sys (map Fire ls) (Starts t ∷ ms)
        × AllFire (length ls) ls t ms u) }
    ensures reaches { (sys : System V) (dropped : List ℕ) (ls : List Label) (t u : List Value)
        (ms : List Moment) (steps : ℕ) → AreOpen sys dropped ls
        → Runs sys (map Fire ls) (Starts t ∷ ms) → AllFire steps ls t ms u
        → Reaches sys dropped (reverse ls) u }
    ensures conflict_replays { (sys : System V) (dropped : List ℕ) (ls : List Label) (f : FlowFault)
        → Conflicts sys dropped (reverse ls) f
        → (ms : List Moment) × Runs sys (map Fire ls) ms × FailsLast f ls ms }
    ensures undropped { (sys : System V) (dropped : List ℕ) (ls : List Label) (t : List Value)
        → Reaches sys dropped ls t → Reaches sys [] ls t }
{}
