//! Laws of tables of models that agree.

ghost use Rattle.std.specs.Prelude.{◌≡◌, ◌↔◌, ℕ, List, Option};
ghost use Rattle.ar_base.specs.declared.places.Place.{Place};
ghost use Rattle.ar_parser.specs.Models.{ReadsWithin};
ghost use Rattle.parser_laws.specs.Models.{SameModel};
ghost use Rattle.ar_syntax.specs.declared.items.Model.{Model};
ghost use Rattle.class_table.specs.Declaring.{Declared, IsDeclared};
ghost use Rattle.class_table.specs.Members.{Site, Members};
ghost use Rattle.class_table.specs.Rules.{BreaksTextRule};
ghost use Rattle.hierarchy.specs.Models.{RootedModel, IsRootedIn};
ghost use Rattle.source_laws.specs.Tables.{AreSeenAlike, SameTable};

use class_table::declaring_laws;
use parser_laws::readings::{agreement_opens, one_reading};

/// Models that agree declare tables that agree: the same bodies with members that agree, the same types,
/// symbols and top-level blocks, all in one order.
pub fn tables_agree()
    ensures { (m n : Model) (d e : Declared) → SameModel m n → IsDeclared m d → IsDeclared n e
        → SameTable d e }
{
    agreement_opens();
    declaring_laws();
}

/// Whatever its limit of nesting, a text declares one table: those of two readings of it agree.
pub fn one_table_of_a_text()
    ensures { (text : List ℕ) (n : ℕ) (x y : Model) (d e : Declared) → ReadsWithin n text x
        → ReadsWithin n text y → IsDeclared x d → IsDeclared y e → SameTable d e }
{
    one_reading();
    tables_agree();
}

/// In tables that agree lists of a body's members, inherited ones included, are one list, site by site.
/// A body that extends itself has none.
pub fn members_agree()
    ensures { (d e : Declared) → SameTable d e → (b : ℕ) (xs ys : List Site) → Members d b xs
        → Members e b ys → xs ≡ ys }
{
    agreement_opens();
    declaring_laws();
}

/// However a text is read, each of its bodies has at most one list of members.
pub fn one_list_of_members_of_a_text()
    ensures { (text : List ℕ) (n : ℕ) (x y : Model) (d e : Declared) → ReadsWithin n text x
        → ReadsWithin n text y → IsDeclared x d → IsDeclared y e
        → (b : ℕ) (xs ys : List Site) → Members d b xs → Members e b ys → xs ≡ ys }
{
    one_table_of_a_text();
    members_agree();
}

/// However a text is read, it is seen alike from the main block that is asked for: with one table, the
/// same members of each body, the same names, and a main block that is one in both.
pub fn texts_are_seen_alike()
    ensures { (text : List ℕ) (k : ℕ) (x y : Model) (main : Option (List ℕ)) (m n : RootedModel)
        → ReadsWithin k text x → ReadsWithin k text y → IsRootedIn x main m → IsRootedIn y main n
        → AreSeenAlike main m n }
{
    one_reading();
    agreement_opens();
    declaring_laws();
}

/// However a text is read, it breaks the same of the rules L1 to L5 at the same places.
pub fn texts_break_the_same_rules()
    ensures { (text : List ℕ) (k : ℕ) (x y : Model) (d e : Declared) → ReadsWithin k text x
        → ReadsWithin k text y → IsDeclared x d → IsDeclared y e
        → (main : Option (List ℕ)) (r : ℕ) (p : Place)
        → (BreaksTextRule x main d r p ↔ BreaksTextRule y main e r p) }
{
    one_reading();
    agreement_opens();
    tables_agree();
}
