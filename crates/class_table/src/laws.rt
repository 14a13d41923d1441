//! What follows from the definitions of a model's table.

ghost use Rattle.std.specs.Prelude.{◌≡◌, ℕ, List, [], ◌∷◌, Option, Some, None, Ok, Err};
ghost use Rattle.ar_base.specs.Lists.{Stands};
ghost use Rattle.ar_base.specs.declared.faults.RuleFault.{RuleFault};
ghost use Rattle.ar_base.specs.declared.faults.RuleFault.TheVariants.{Rule};
ghost use Rattle.ar_base.specs.declared.places.Place.{Place};
ghost use Rattle.ar_syntax.specs.declared.items.Model.{Model};
ghost use Rattle.class_table.specs.Declaring.{Declared, TextBody, IsDeclared};
ghost use Rattle.class_table.specs.Members.{Site, Members, extended, class_named};
ghost use Rattle.class_table.specs.Tabling.{Tabulates};
ghost use Rattle.class_table.specs.declared.tables.Classes.{Classes};
ghost use Rattle.class_table.specs.declared.tables.Owned.{Owned};

/// Laws of what a model declares.
///
/// - `one_declared`: A model declares one thing: its bodies, types, symbols and top-level blocks are
///   determined.
/// - `one_list_of_members`: A body has at most one list of members.
/// - `one_refusal`, `table_or_refusal`: A model has a table or breaks a rule, never both, and it is refused
///   with one rule at one place.
/// - `inherited_members_come_first`: Where a class extends nothing and has one member, and a block begins by
///   extending it and has one member more, the block's members are that of the class, the clause itself, and
///   then its own.
pub fn declaring_laws()
    ensures one_declared { (model : Model) (d e : Declared) → IsDeclared model d → IsDeclared model e → d ≡ e }
    ensures one_list_of_members { (d : Declared) (b : ℕ) (xs ys : List Site) → Members d b xs → Members d b ys
        → xs ≡ ys }
    ensures one_refusal { (main : Option (List ℕ)) (model : Model) (r s : ℕ) (p q : Place)
        → Tabulates main model (Err (Rule r p)) → Tabulates main model (Err (Rule s q))
        → (r ≡ s) × (p ≡ q) }
    ensures table_or_refusal { (main : Option (List ℕ)) (model : Model) (c : Classes) (f : RuleFault)
        → Tabulates main model (Ok c) → Tabulates main model (Err f) → ⊥ }
    ensures inherited_members_come_first { (d : Declared) (a b x : ℕ) (class block : TextBody) (inherited clause own : Owned)
        → Stands d.bodies a class → Stands d.bodies b block
        → class.own ≡ inherited ∷ [] → block.own ≡ clause ∷ own ∷ [] → extended inherited ≡ None
        → extended own ≡ None → extended clause ≡ Some x → class_named d x ≡ Some a
        → Members d b (record { body = a; place = 0 } ∷ record { body = b; place = 0 }
        ∷ record { body = b; place = 1 } ∷ []) }
{}
