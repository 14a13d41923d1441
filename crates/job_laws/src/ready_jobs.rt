//! Laws of jobs whose sources are alike.

ghost use Rattle.std.specs.Prelude.{◌≡◌, ◌↔◌, ℕ, List, Option, Result, Ok, Err};
ghost use Rattle.ar_firing.specs.Cuts.{IsConflictFreeUpTo};
ghost use Rattle.ar_meaning.specs.Runs.{Command, Label};
ghost use Rattle.domains.specs.declared.Value.{Value};
ghost use Rattle.source_meaning.specs.Systems.{Declarations};
ghost use Rattle.gts_flatten.specs.Elaborating.{Elaborated};
ghost use Rattle.gts_flatten.specs.Flat.{naming_of};
ghost use Rattle.job_inputs.specs.CutLists.{CutLine, CutList};
ghost use Rattle.job_inputs.specs.Labels.{IsLabel};
ghost use Rattle.job_inputs.specs.Naming.{NamesEvents};
ghost use Rattle.job_inputs.specs.Scripts.{BadLine, Commands};
ghost use Rattle.job_inputs.specs.Wanting.{NamesObserver, IsWanted};
ghost use Rattle.run_words.specs.declared.jobs.Asked.{Asked};
ghost use Rattle.altarica_run.specs.Listings.{IsCut};
ghost use Rattle.altarica_run.specs.Nodes.{HasConflict};
ghost use Rattle.job_stages.specs.Stages.{Ready, Asks, Readies};
ghost use Rattle.job_stages.specs.Tells.{HasCuts, MayNeedMore, Tells};
ghost use Rattle.job_stages.specs.declared.refusals.Refusal.{Refusal};
ghost use Rattle.job_stages.specs.declared.status.Status.{Status};
ghost use Rattle.source_laws.specs.Declarations.{SameDeclarations};
ghost use Rattle.source_laws.specs.Sources.{SameSource};
ghost use Rattle.job_laws.specs.Ready.{SameReady};

use parser_laws::readings::agreement_opens;

/// Declarations and sources that are alike, and jobs that stand ready alike, are so the other way
/// round.
pub fn likeness_turns_round()
    ensures declarations { (d e : Declarations) → SameDeclarations d e → SameDeclarations e d }
    ensures sources { (x y : Elaborated) → SameSource x y → SameSource y x }
    ensures jobs { (w v : Ready) → SameReady w v → SameReady v w }
{}

/// Jobs of sources that are alike are answered alike.
///
/// - `naming`, `labels`, `scripts`, `inputs_agree_cuts`, `events`, `observers`, `wanted`: In sources that are
///   alike everything is called alike, and words, scripts and lists of cuts mean the same: labels, commands,
///   cut lines, events, observers and their values.
/// - `requests_pass`, `requests_refused`: Of sources that are alike the words, the script and the list of cuts
///   of a job ask one thing, and both jobs stand ready alike; or they are refused in one way.
/// - `readiness_passes`, `readiness_refused`: Of sources that are alike the stages behind them have at most one
///   answer: both jobs stand ready alike, or are refused in one way.
/// - `conflict_free`, `conflicts_agree`, `cuts_agree`, `nodes_agree`: Of jobs that stand ready alike no set of
///   events meets a conflict in both or in neither, some set does in both or in neither, and more nodes than a
///   limit may be needed for both or for neither. Where both have cuts, the same sets of events are cuts.
/// - `texts_agree`: Jobs that stand ready alike tell the same texts, and end in the same ways.
pub fn jobs_agree()
    ensures naming { (x y : Elaborated) → SameSource x y
        → naming_of x.declarations ≡ naming_of y.declarations }
    ensures labels { (x y : Elaborated) → SameSource x y → (text : List ℕ) (l : Label)
        → (IsLabel x text l ↔ IsLabel y text l) }
    ensures scripts { (x y : Elaborated) → SameSource x y → (script : List ℕ)
        (a : Result (List Command) BadLine) → (Commands script x a ↔ Commands script y a) }
    ensures inputs_agree_cuts { (x y : Elaborated) → SameSource x y → (list : List ℕ)
        (a : Result (List CutLine) BadLine) → (CutList list x a ↔ CutList list y a) }
    ensures events { (x y : Elaborated) → SameSource x y → (text events : List ℕ)
        → (NamesEvents x text events ↔ NamesEvents y text events) }
    ensures observers { (x y : Elaborated) → SameSource x y → (path : List ℕ) (n : ℕ)
        → (NamesObserver x path n ↔ NamesObserver y path n) }
    ensures wanted { (x y : Elaborated) → SameSource x y → (path : List ℕ) (word : Option (List ℕ))
        (n : ℕ) (v : Value) → (IsWanted x path word n v ↔ IsWanted y path word n v) }
    ensures requests_pass { (x y : Elaborated) → SameSource x y → (asked : Asked) (texts : List (List ℕ))
        (w : Ready) → Asks asked texts x (Ok w)
        → (v : Ready) × Asks asked texts y (Ok v) × SameReady w v }
    ensures requests_refused { (x y : Elaborated) → SameSource x y → (asked : Asked) (texts : List (List ℕ))
        (r : Refusal) → Asks asked texts x (Err r) → Asks asked texts y (Err r) }
    ensures readiness_passes { (x y : Elaborated) → SameSource x y → (asked : Asked) (texts : List (List ℕ))
        (w : Ready) → Readies asked texts x (Ok w)
        → (v : Ready) × Readies asked texts y (Ok v) × SameReady w v }
    ensures readiness_refused { (x y : Elaborated) → SameSource x y → (asked : Asked) (texts : List (List ℕ))
        (r : Refusal) → Readies asked texts x (Err r) → Readies asked texts y (Err r) }
    ensures conflict_free { (w v : Ready) → SameReady w v
        → (IsConflictFreeUpTo w.order w.source.system w.dropped
        ↔ IsConflictFreeUpTo v.order v.source.system v.dropped) }
    ensures conflicts_agree { (w v : Ready) → SameReady w v → (HasConflict w ↔ HasConflict v) }
    ensures cuts_agree { (w v : Ready) → SameReady w v → (a : HasCuts w) (b : HasCuts v) (set : List ℕ)
        → (IsCut w a set ↔ IsCut v b set) }
    ensures nodes_agree { (w v : Ready) → SameReady w v → (limit : ℕ)
        → (MayNeedMore w limit ↔ MayNeedMore v limit) }
    ensures texts_agree { (w v : Ready) → SameReady w v → (asked : Asked) (text : List ℕ) (ends : Status)
        → (Tells asked w text ends ↔ Tells asked v text ends) }
{
    agreement_opens();
}
