//! What follows from the definitions of labels, scripts, lists of events, observers and values.

ghost use Rattle.std.specs.Prelude.{◌≡◌, ℕ, List, Option, Result};
ghost use Rattle.ar_meaning.specs.Runs.{Command};
ghost use Rattle.domains.specs.declared.Value.{Value};
ghost use Rattle.gts_flatten.specs.Elaborating.{Elaborated};
ghost use Rattle.job_inputs.specs.CutListsInside.{HaveOneMeaning};
ghost use Rattle.job_inputs.specs.Scripts.{BadLine, Commands};
ghost use Rattle.job_inputs.specs.Naming.{NamesEvents, HasUnknown};
ghost use Rattle.job_inputs.specs.Wanting.{IsWanted, NamesObserver, NamesNone, WantsNone};
ghost use Rattle.job_laws.specs.Named.{NamesOnce};

/// In a definite source words mean at most one thing.
///
/// - `one_label`: Where no two names have one text, no name has a `#`, no event is listed twice and none has
///   2^64 ways or more, a label is that of one way, and it is not the path of an event with other ways.
/// - `one_script`: A script has at most one reading: it gives its commands in one way, or one line of it is the
///   first bad one, for one reason. This rests on labels that name one way each and need no other number.
/// - `one_list_of_events`, `events_apart`: A list of events names its events in one way, and then no part of it
///   names no event.
/// - `one_observer`, `one_wanted`, `one_named`, `one_asked`, `observers_apart`: A path names at most one
///   observer, and with a word it asks for at most one value of it. Of the three, a path that names none, words
///   that ask for a value, and words that ask for none, at most one is the case.
pub fn one_meaning_of_words()
    ensures one_label { (x : Elaborated) → NamesOnce x → HaveOneMeaning x }
    ensures one_script { (x : Elaborated) → HaveOneMeaning x → (script : List ℕ)
        (a b : Result (List Command) BadLine) → Commands script x a → Commands script x b → a ≡ b }
    ensures one_list_of_events { (x : Elaborated) → NamesOnce x → (text : List ℕ) (events others : List ℕ)
        → NamesEvents x text events → NamesEvents x text others → events ≡ others }
    ensures events_apart { (x : Elaborated) (text : List ℕ) (events : List ℕ) → NamesEvents x text events
        → HasUnknown x text → ⊥ }
    ensures one_observer { (x : Elaborated) → NamesOnce x → (path : List ℕ) (m n : ℕ)
        → NamesObserver x path m → NamesObserver x path n → m ≡ n }
    ensures one_wanted { (x : Elaborated) → NamesOnce x → (path : List ℕ) (word : Option (List ℕ))
        (m n : ℕ) (v w : Value) → IsWanted x path word m v → IsWanted x path word n w
        → (m ≡ n) × (v ≡ w) }
    ensures one_named { (x : Elaborated) (path : List ℕ) (word : Option (List ℕ)) (n : ℕ) (v : Value)
        → IsWanted x path word n v → NamesNone x path → ⊥ }
    ensures one_asked { (x : Elaborated) → NamesOnce x → (path : List ℕ) (word : Option (List ℕ))
        (n : ℕ) (v : Value) → IsWanted x path word n v → WantsNone x path word → ⊥ }
    ensures observers_apart { (x : Elaborated) (path : List ℕ) (word : Option (List ℕ))
        → WantsNone x path word → NamesNone x path → ⊥ }
{}
