//! Walks of names end: in a model that keeps the rules over the whole text each has an outcome.
//!
//! Each function here has an empty body and states a law.

ghost use Rattle.std.specs.Prelude.{ℕ, List, Option};
ghost use Rattle.hierarchy.specs.Models.{RootedModel};
ghost use Rattle.hierarchy.specs.ModelsInside.{KeepsTextRules};
ghost use Rattle.hierarchy.specs.Units.{UnitPath, Thing, kind_at};
ghost use Rattle.hierarchy.specs.Walks.{WalkOutcome, NameLeads, NamesLead};
ghost use Rattle.hierarchy.specs.Listing.{AreUnits};

/// In a model that keeps the rules over the whole text each walk ends.
///
/// - `name`, `names`: In a model that keeps the rules over the whole text each name of each unit, and each
///   path, comes to an outcome, whatever statements are being followed.
/// - `some_list`: The main block of such a model has a list of its units.
pub fn some_outcome()
    ensures name { (m : RootedModel) → KeepsTextRules m → (f : List Thing) (u : UnitPath) (x : ℕ)
        → (o : WalkOutcome) × NameLeads m f u x (kind_at m u x) o }
    ensures names { (m : RootedModel) → KeepsTextRules m
        → (f : List Thing) (u : Option UnitPath) (xs : List ℕ)
        → (o : WalkOutcome) × NamesLead m f u xs o }
    ensures some_list { (m : RootedModel) → KeepsTextRules m → (units : List UnitPath) × AreUnits m units }
{}
