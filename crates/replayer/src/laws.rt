//! What follows from the definition of replays.

ghost use Rattle.std.specs.Prelude.{◌≡◌, ◌↔◌, ℕ, List};
ghost use Rattle.domains.specs.declared.Value.{Value};
ghost use Rattle.ar_meaning.specs.Runs.{Command as RunCommand};
ghost use Rattle.ar_meaning.specs.Systems.{System};
ghost use Rattle.ar_meaning.specs.TraceText.{Naming};
ghost use Rattle.gts_core.specs.View.{Views};
ghost use Rattle.gts_core.specs.declared.system.GtsParts.{GtsParts};
ghost use Rattle.gts_flatten.specs.Elaborating.{Elaborated};
ghost use Rattle.gts_flatten.specs.Flat.{IsFlat, naming_of, naming_of_parts};
ghost use Rattle.replayer.specs.Replays.{IsReplay};
ghost use Rattle.replayer.specs.Settles.{Settles, IsFaultLine};
ghost use Rattle.replayer.specs.declared.ends.End.{End as TheEnd};

use gts_core::laws::one_system;

/// A flat system has the replays of its source, and no others.
pub fn replays_of_the_source()
    ensures { (x : Elaborated) (flat : System ℕ) (p : GtsParts) → IsFlat x p → Views p flat
        → (commands : List RunCommand) (text : List ℕ) (end : TheEnd)
        → (IsReplay (naming_of_parts p) flat commands text end
        ↔ IsReplay (naming_of x.declarations) x.system commands text end) }
{
    one_system();
}

/// A flat system's runs stand where those of its source do, and end in faults with the same lines.
pub fn settles_of_the_source()
    ensures settles { (x : Elaborated) (flat : System ℕ) (p : GtsParts) → IsFlat x p → Views p flat
        → (commands : List RunCommand) (t : List Value)
        → (Settles flat commands t ↔ Settles x.system commands t) }
    ensures fault_lines { (x : Elaborated) (flat : System ℕ) (p : GtsParts) → IsFlat x p
        → Views p flat → (commands : List RunCommand) (text : List ℕ)
        → (IsFaultLine (naming_of_parts p) flat commands text
        ↔ IsFaultLine (naming_of x.declarations) x.system commands text) }
{
    one_system();
}

/// A run stands at one valuation at its end, if at any, and at none where it ends in a fault.
pub fn one_settling<V>()
    ensures one { (sys : System V) (commands : List RunCommand) (t u : List Value)
        → Settles sys commands t → Settles sys commands u → t ≡ u }
    ensures no_fault { (sys : System V) (commands : List RunCommand) (t : List Value)
        (names : Naming) (text : List ℕ)
        → Settles sys commands t → IsFaultLine names sys commands text → ⊥ }
{}
