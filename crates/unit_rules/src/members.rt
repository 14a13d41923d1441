//! Counts of members.

ghost use Rattle.std.specs.Prelude.{◌≡◌, ℕ, List, map, sum};
ghost use Rattle.ar_base.specs.Lists.{Along};
ghost use Rattle.ar_syntax.specs.declared.members.Member.{out-Member};
ghost use Rattle.class_table.specs.Declaring.{Declared};
ghost use Rattle.class_table.specs.Members.{Site, names_of_form};
ghost use Rattle.class_table.specs.TablesInside.{IsNamedType};
ghost use Rattle.hierarchy.specs.Walks.{is_variable, is_event};
ghost use Rattle.unit_rules.specs.Sizes.{member_size as size_of, setting_size};
ghost use Rattle.unit_rules.specs.Counting.{capped, named_so, CountsMember};
ghost use Rattle.unit_rules.specs.TypingInside.{KnowsPlaces};

use crate::counts::{Counts, both};
use crate::expressions::{expr_size, instr_size};
use crate::types::TypePlaces;
use ar_base::NameId;
use ar_syntax::{Member, Setting};
use class_table::{Owned, TypeBody};

/// The counts of a member.
pub(crate) fn counts_of(owned: &Owned, types: &[(NameId, TypeBody)], places: &TypePlaces) -> Counts
    ensures { (d : Declared) → Along (IsNamedType d.symbols) types.now d.types
        → KnowsPlaces types.now places.now
        → CountsMember d owned.now result }
{
    match owned {
        Owned::Nested(_, _, _) => Counts {
            variables: 0,
            events: 0,
            nodes: 1,
        },
        Owned::Plain(member) => Counts {
            variables: variables_of(member, types, places),
            events: events_of(member),
            nodes: member_size(member),
        },
    }
}

// How many variables a member declares.
fn variables_of(member: &Member, types: &[(NameId, TypeBody)], places: &TypePlaces) -> u64
    ensures { (d : Declared) (s : Site) → Along (IsNamedType d.symbols) types.now d.types
        → KnowsPlaces types.now places.now
        → result ≡ capped (named_so is_variable (names_of_form d s (out-Member member.now))) }
{
    match member {
        Member::Declare(type_name, names, _) => {
            if places.is_domain(types, type_name.form) {
                names.len() as u64
            } else {
                0
            }
        }
        _ => 0,
    }
}

// How many events a member declares.
fn events_of(member: &Member) -> u64
    ensures { (d : Declared) (s : Site)
        → result ≡ capped (named_so is_event (names_of_form d s (out-Member member.now))) }
{
    match member {
        Member::Event(_, _, _) => 1,
        Member::Declare(_, _, _) => 0,
        _ => 0,
    }
}

// The size of a member.
fn member_size(member: &Member) -> u64
    ensures { result ≡ capped (size_of (out-Member member.now)) }
{
    match member {
        Member::Declare(_, names, settings) => {
            both(1, both(names.len() as u64, settings_size(settings)))
        }
        Member::Parameter(_, _, _, value) | Member::Observer(_, _, _, value) => {
            both(1, expr_size(value))
        }
        Member::Local(_, _, guard, action) => {
            both(1, both(expr_size(guard), instr_size(action)))
        }
        Member::Sync(_, _, parts) => both(1, both(parts.len() as u64, parts.len() as u64)),
        Member::Assert(instr) => both(1, instr_size(instr)),
        Member::Clones(_, _, _) | Member::Embeds(_, _, _) | Member::Hide(_) => 2,
        Member::Extends(_, _) | Member::Block(_) => 1,
        Member::Kept(_, _, _) | Member::Event(_, _, _) => 1,
    }
}

// The sizes of settings together.
fn settings_size(settings: &[Setting]) -> u64
    ensures { result ≡ capped (sum (map setting_size settings.now)) }
{
    let mut size = 0;
    for setting in settings {
        size = both(size, both(1, expr_size(&setting.value)));
    }
    size
}
