//! What follows from the definitions of walks, lists and settings.

ghost use Rattle.std.specs.Prelude.{◌≡◌, ℕ, List, [], ◌∷◌, Option, Some, None, Ok};
ghost use Rattle.ar_syntax.specs.declared.items.Model.{Model};
ghost use Rattle.ar_syntax.specs.declared.paths.Path.{Path};
ghost use Rattle.ar_syntax.specs.declared.paths.PathStart.TheVariants.{Owner};
ghost use Rattle.class_table.specs.Members.{MemberKind, Clone};
ghost use Rattle.class_table.specs.Tabling.{Tabulates};
ghost use Rattle.class_table.specs.declared.tables.Classes.{Classes};
ghost use Rattle.hierarchy.specs.Models.{RootedModel, IsRootedIn};
ghost use Rattle.hierarchy.specs.ModelsInside.{IsKeptTable};
ghost use Rattle.hierarchy.specs.Units.{UnitLevel, UnitPath, Thing, start_of};
ghost use Rattle.hierarchy.specs.Walks.{WalkOutcome, Reaches, NameLeads, NamesLead};
ghost use Rattle.hierarchy.specs.Listing.{AreUnits};
ghost use Rattle.hierarchy.specs.Settings.{Named, Init, Attribute, outermost, set_by};

/// Laws of walks, lists of units and settings.
///
/// - `one_outcome_of_name`, `one_outcome_of_path`: A name and a path come to one outcome.
/// - `one_list`: A main block has one list of units.
/// - `clones_have_new_owners`: A clone stands in the unit of its statement, whatever unit holds what it copies.
/// - `outer_setting_wins`, `inner_setting_else`: What an outer unit sets wins over what an inner one sets: `D d
///   (c.s.init = ..)` over `C c (s.init = ..)` in D.
pub fn tree_laws()
    ensures one_outcome_of_name { (m : RootedModel) (f : List Thing) (u : UnitPath) (x : ℕ) (w : Option MemberKind)
        (o p : WalkOutcome)
        → NameLeads m f u x w o → NameLeads m f u x w p → o ≡ p }
    ensures one_outcome_of_path { (m : RootedModel) (f : List Thing) (u : Option UnitPath) (xs : List ℕ)
        (o p : WalkOutcome)
        → NamesLead m f u xs o → NamesLead m f u xs p → o ≡ p }
    ensures one_list { (m : RootedModel) (us vs : List UnitPath) → AreUnits m us → AreUnits m vs → us ≡ vs }
    ensures clones_have_new_owners { (m : RootedModel) (f : List Thing) (u v : UnitPath) (x : ℕ) (p : Path)
        → NameLeads m f u x (Some (Clone p)) (Reaches v) → start_of Owner v ≡ Some u }
    ensures outer_setting_wins { (m : RootedModel) (d i : UnitLevel) (s : ℕ) (z : Attribute)
        → set_by m [] d.set_at (Named i.name ∷ Named s ∷ Init ∷ []) ≡ Some z
        → outermost m (i ∷ d ∷ []) (Named s ∷ Init ∷ []) ≡ Some z }
    ensures inner_setting_else { (m : RootedModel) (d i : UnitLevel) (s : ℕ)
        → set_by m [] d.set_at (Named i.name ∷ Named s ∷ Init ∷ []) ≡ None
        → outermost m (i ∷ d ∷ []) (Named s ∷ Init ∷ [])
        ≡ set_by m (d ∷ []) i.set_at (Named s ∷ Init ∷ []) }
{}

/// The table of a model that keeps the rules over the whole text is that of the model, seen from its main block.
pub fn tables_are_rooted()
    ensures { (model : Model) (main : Option (List ℕ)) (c : Classes) → Tabulates main model (Ok c)
        → (m : RootedModel) × IsRootedIn model main m × IsKeptTable m c }
{}
