//! From a text to its source.

ghost use Rattle.std.specs.Prelude.{ℕ, List, Option, Result, Ok};
ghost use Rattle.ar_base.specs.Stages.{Keeps};
ghost use Rattle.ar_base.specs.declared.faults.RuleFault.{RuleFault};
ghost use Rattle.ar_syntax.specs.declared.items.Model.{Model};
ghost use Rattle.hierarchy.specs.Models.{RootedModel};
ghost use Rattle.hierarchy.specs.ModelsInside.{KeepsTextRules};
ghost use Rattle.hierarchy.specs.Listing.{Unfolded};
ghost use Rattle.unit_rules.specs.Limits.{FitsLimits};
ghost use Rattle.unit_walks.specs.Unfolding.{Unfolds};
ghost use Rattle.instantiate.specs.Unfolding.{Instantiates, unit_rules, unit_breaks};
ghost use Rattle.source_meaning.specs.Rules.{name_rules};
ghost use Rattle.source_meaning.specs.Systems.{Declarations, Declares, Binds, name_breaks};
ghost use Rattle.sync_expand.specs.Counting.{way_rules};
ghost use Rattle.gts_flatten.specs.Elaborating.{Elaborated, BreaksWayRule, HasSystem};
ghost use Rattle.job_stages.specs.Elaborates.{Parses, Tables, Elaborates};
ghost use Rattle.existence_laws.specs.Answered.{HasAnswer};

/// Stages of units, rules, limits and systems have an answer.
///
/// - `units`: The units of a model that keeps L1 to L5 are within the limits of depth and number, or its first units
///   pass one of them.
/// - `limits`: Of the units of a model the limits of variables, events and nodes are kept, or one is passed.
/// - `unit_rules`, `name_rules`, `way_rules`: The rules L6 to L9, L10 to L13 and L14 are kept, or there is the
///   least of them that is broken, at its earliest place.
/// - `systems`: Declarations of such units mean a system where none of their synchronisations leads back to its event.
pub fn rules_are_answered()
    ensures units { (m : RootedModel) → KeepsTextRules m → (r : Result Unfolded RuleFault) × Unfolds m r }
    ensures limits { (t : Unfolded) → HasAnswer (FitsLimits t) }
    ensures unit_rules { (t : Unfolded) → HasAnswer (Keeps unit_rules unit_breaks t) }
    ensures name_rules { (t : Unfolded) → HasAnswer (Keeps name_rules name_breaks t) }
    ensures way_rules { (d : Declarations) → HasAnswer (Keeps way_rules BreaksWayRule d) }
    ensures systems { (m : RootedModel) (t : Unfolded) (d e : Declarations) → Instantiates m (Ok t) → Binds t (Ok d)
        → Keeps way_rules BreaksWayRule d (Ok e) → (x : Elaborated) × HasSystem e (Ok x) }
{}

/// A text has a source or a refusal where its open stages have answers, each for what the stages before it
/// have passed on: that it is read or refused, that its tree is tabled or breaks a rule of L1 to L5, and that its
/// declarations are made. Everything else is answered: the units, the rules L6 to L14, the limits of units, events,
/// ways and nodes, and the system.
pub fn sources_are_answered()
    ensures { (main : Option (List ℕ)) (text : List ℕ)
        → HasAnswer (Parses text)
        → ((model : Model) → Parses text (Ok model) → HasAnswer (Tables main model))
        → ((m : RootedModel) (t u : Unfolded) → KeepsTextRules m → Instantiates m (Ok t)
        → Keeps name_rules name_breaks t (Ok u) → HasAnswer (Declares u))
        → HasAnswer (Elaborates main text) }
{}
