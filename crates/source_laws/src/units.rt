//! Laws of units of models that agree.

ghost use Rattle.std.specs.Prelude.{◌≡◌, ◌↔◌, ℕ, List, Option, Result};
ghost use Rattle.ar_base.specs.Breach.{AreKept};
ghost use Rattle.ar_base.specs.Lists.{Along};
ghost use Rattle.ar_base.specs.declared.faults.RuleFault.{RuleFault};
ghost use Rattle.ar_base.specs.declared.places.Place.{Place};
ghost use Rattle.ar_parser.specs.Models.{ReadsWithin};
ghost use Rattle.ar_syntax.specs.declared.items.Model.{Model};
ghost use Rattle.ar_syntax.specs.declared.members.TypeForm.{TypeForm};
ghost use Rattle.ar_syntax.specs.declared.paths.Path.{Path};
ghost use Rattle.domains.specs.declared.Domain.{Domain};
ghost use Rattle.parser_laws.specs.Expressions.{SamePath, SameOption, SameInstr};
ghost use Rattle.class_table.specs.Rules.{BreaksTextRule, text_rules};
ghost use Rattle.hierarchy.specs.Models.{RootedModel, IsRootedIn};
ghost use Rattle.hierarchy.specs.Units.{UnitPath, Thing};
ghost use Rattle.hierarchy.specs.Walks.{WalkOutcome, NamesLead, Finds};
ghost use Rattle.hierarchy.specs.Walks.{is_variable, is_parameter, is_event, is_observer};
ghost use Rattle.hierarchy.specs.Listing.{Unfolded, AreUnits, variables, parameters, events, observers};
ghost use Rattle.hierarchy.specs.Listing.{assertions, hidden_paths, ways_declared};
ghost use Rattle.hierarchy.specs.Paths.{unit_path, thing_path};
ghost use Rattle.hierarchy.specs.PathsInside.{dotted};
ghost use Rattle.hierarchy.specs.Settings.{in_force};
ghost use Rattle.hierarchy.specs.TypeDomains.{HasDomain};
ghost use Rattle.unit_rules.specs.Sizes.{tree_nodes};
ghost use Rattle.instantiate.specs.Unfolding.{BreaksUnitRule, Instantiates};
ghost use Rattle.source_laws.specs.Answers.{SameAnswer};
ghost use Rattle.source_laws.specs.Tables.{SameRooted};
ghost use Rattle.source_laws.specs.Units.{SameUnfolded, SameAttribute, SameIn};
ghost use Rattle.source_laws.specs.Views.{SameForms};

use crate::laws::texts_are_seen_alike;
use parser_laws::readings::agreement_opens;

/// In models that agree units, and what they hold, agree.
///
/// - `walks_agree`, `lists_agree`: In models that agree each path leads to the same outcome, and the main block
///   has the same units.
/// - `variables`, `parameters`, `events`, `observers`, `nodes`: In models that agree the same units hold the
///   same variables, parameters, events and observers, in one order, and as many nodes.
/// - `variable_paths_agree`, `parameter_paths_agree`, `event_paths_agree`, `observer_paths_agree`, `unit_text`,
///   `thing_text`, `path_text`: In models that agree paths name the same things, and units, things and paths
///   have the same texts.
/// - `in_force`, `domains`, `assertions`, `hidden`, `ways`: In models that agree each thing has a value in
///   force in both or in neither, read in one unit from one member, and its expressions agree; types have the
///   same domains; and the assertions, the paths that hide clauses name, and the transitions and
///   synchronisations of each event agree, in one order.
/// - `unit_rules_agree`: Models that agree break the same of the rules L6 to L9 at the same places, where they
///   have the same units.
/// - `one_tree_or_refusal`: The unfolding of models that agree has at most one answer: both have the same
///   units, or both pass the same limit, or break the same rule at the same place.
pub fn units_agree()
    ensures walks_agree { (m n : RootedModel) → SameRooted m n → (f : List Thing) (u : Option UnitPath)
        (xs : List ℕ) (o : WalkOutcome) → (NamesLead m f u xs o ↔ NamesLead n f u xs o) }
    ensures lists_agree { (m n : RootedModel) → SameRooted m n → (us : List UnitPath)
        → (AreUnits m us ↔ AreUnits n us) }
    ensures variables { (m n : RootedModel) → SameRooted m n → (us : List UnitPath)
        → variables m us ≡ variables n us }
    ensures parameters { (m n : RootedModel) → SameRooted m n → (us : List UnitPath)
        → parameters m us ≡ parameters n us }
    ensures events { (m n : RootedModel) → SameRooted m n → (us : List UnitPath)
        → events m us ≡ events n us }
    ensures observers { (m n : RootedModel) → SameRooted m n → (us : List UnitPath)
        → observers m us ≡ observers n us }
    ensures nodes { (m n : RootedModel) → SameRooted m n → (us : List UnitPath)
        → tree_nodes m us ≡ tree_nodes n us }
    ensures variable_paths_agree { (m n : RootedModel) → SameRooted m n → (u : UnitPath) (p : Path) (t : Thing)
        → (Finds m is_variable u p t ↔ Finds n is_variable u p t) }
    ensures parameter_paths_agree { (m n : RootedModel) → SameRooted m n → (u : UnitPath) (p : Path) (t : Thing)
        → (Finds m is_parameter u p t ↔ Finds n is_parameter u p t) }
    ensures event_paths_agree { (m n : RootedModel) → SameRooted m n → (u : UnitPath) (p : Path) (t : Thing)
        → (Finds m is_event u p t ↔ Finds n is_event u p t) }
    ensures observer_paths_agree { (m n : RootedModel) → SameRooted m n → (u : UnitPath) (p : Path) (t : Thing)
        → (Finds m is_observer u p t ↔ Finds n is_observer u p t) }
    ensures unit_text { (m n : RootedModel) → SameRooted m n → (u : UnitPath)
        → unit_path m u ≡ unit_path n u }
    ensures thing_text { (m n : RootedModel) → SameRooted m n → (t : Thing)
        → thing_path m t ≡ thing_path n t }
    ensures path_text { (m n : RootedModel) → SameRooted m n → (xs : List ℕ)
        → dotted m xs ≡ dotted n xs }
    ensures in_force { (m n : RootedModel) → SameRooted m n → (t : Thing)
        → SameOption SameAttribute (in_force m t) (in_force n t) }
    ensures domains { (m n : RootedModel) → SameRooted m n → (f : TypeForm) (v : Domain)
        → HasDomain m.declared f v → HasDomain n.declared f v }
    ensures assertions { (m n : RootedModel) → SameRooted m n → (us : List UnitPath)
        → Along (SameIn SameInstr) (assertions m us) (assertions n us) }
    ensures hidden { (m n : RootedModel) → SameRooted m n → (us : List UnitPath)
        → Along (SameIn SamePath) (hidden_paths m us) (hidden_paths n us) }
    ensures ways { (m n : RootedModel) → SameRooted m n → (e : Thing)
        → Along SameForms (ways_declared m e) (ways_declared n e) }
    ensures unit_rules_agree { (m n : RootedModel) → SameRooted m n → (us : List UnitPath) (r : ℕ) (p : Place)
        → (BreaksUnitRule m us r p ↔ BreaksUnitRule n us r p) }
    ensures one_tree_or_refusal { (m n : RootedModel) → SameRooted m n → (a b : Result Unfolded RuleFault)
        → Instantiates m a → Instantiates n b → SameAnswer SameUnfolded a b }
{
    agreement_opens();
}

/// However a text is read, where it keeps the rules L1 to L5 it is one model from the main block that is
/// asked for: with one table, the same members of each body, one main block and the same names.
pub fn one_root_of_a_text()
    ensures { (text : List ℕ) (k : ℕ) (x y : Model) (main : Option (List ℕ)) (m n : RootedModel)
        → ReadsWithin k text x → ReadsWithin k text y → IsRootedIn x main m → IsRootedIn y main n
        → AreKept text_rules (BreaksTextRule y main n.declared) → SameRooted m n }
{
    texts_are_seen_alike();
}

/// However a text that keeps the rules L1 to L5 is read, its unfolding has at most one answer.
pub fn one_tree_of_a_text()
    ensures { (text : List ℕ) (k : ℕ) (x y : Model) (main : Option (List ℕ)) (m n : RootedModel)
        → ReadsWithin k text x → ReadsWithin k text y → IsRootedIn x main m → IsRootedIn y main n
        → AreKept text_rules (BreaksTextRule y main n.declared)
        → (a b : Result Unfolded RuleFault) → Instantiates m a → Instantiates n b
        → SameAnswer SameUnfolded a b }
{
    one_root_of_a_text();
    units_agree();
}
