//! What stands where the nodes of a tree say.

ghost use Rattle.std.specs.Prelude.{◌≡◌, List, [], map, Some, option_copied, slice_get, unwrap_or};
ghost use Rattle.class_table.specs.TablesInside.{site_of};
ghost use Rattle.hierarchy.specs.Models.{RootedModel};
ghost use Rattle.hierarchy.specs.ModelsInside.{IsRootedTable};
ghost use Rattle.hierarchy.specs.Units.{UnitPath, Thing};
ghost use Rattle.hierarchy.specs.Settings.{Attribute as Value, in_force};
ghost use Rattle.hierarchy.specs.Tie.{HasAttribute, IsAttribute};
ghost use Rattle.bind_scopes.specs.Sites.{owned_in, is_read as reads_of, declares_flows, written_of};

use ar_base::BodyId;
use ar_syntax::{Member, RawExpr};
use class_table::{Classes, Owned};
use hierarchy::{Attribute, Source};
use unit_rules::is_flow;

/// The member that stands there, where there is one. Takes no memory.
pub(crate) fn owned_at(classes: &Classes, source: Source) -> Option<&Owned>
    ensures { option_copied result ≡ owned_in classes.now source }
{
    match classes.bodies.get(source.body.n as usize) {
        Some(body) => body.own.get(source.member as usize),
        None => None,
    }
}

/// All members of a body, by where they stand; none of a body that there is not. Takes no memory.
pub fn members_of(classes: &Classes, body: BodyId) -> &[(BodyId, u32)]
    ensures { (m : RootedModel) → IsRootedTable m classes.now
        → map site_of result.now ≡ unwrap_or (slice_get m.members body.n) [] }
{
    match classes.bodies.get(body.n as usize) {
        Some(body) => &body.all,
        None => &[],
    }
}

/// Whether a parameter whose value is read stands there. Takes no memory.
pub(crate) fn is_read(classes: &Classes, source: Source) -> bool
    ensures { result ≡ reads_of (owned_in classes.now source) }
{
    match owned_at(classes, source) {
        Some(Owned::Plain(member)) => matches!(member, Member::Parameter(_, _, _, _)),
        _ => false,
    }
}

/// Whether a declaration of flows stands there. Takes no memory.
pub(crate) fn is_flow_at(classes: &Classes, source: Source) -> bool
    ensures { result ≡ declares_flows (owned_in classes.now source) }
{
    match owned_at(classes, source) {
        Some(Owned::Plain(Member::Declare(_, _, settings))) => is_flow(settings),
        _ => false,
    }
}

// The expression of a setting of a member, or that of the member itself.
fn written_in(owned: &Owned, setting: Option<u32>) -> Option<&RawExpr>
    ensures { option_copied result ≡ written_of setting (Some owned.now) }
{
    let member = match owned {
        Owned::Nested(_, _, _) => return None,
        Owned::Plain(member) => member,
    };
    match setting {
        None => match member {
            Member::Parameter(_, _, _, value) => Some(value),
            _ => None,
        },
        Some(place) => match member {
            Member::Declare(_, _, settings) => match settings.get(place as usize) {
                Some(found) => Some(&found.value),
                None => None,
            },
            _ => None,
        },
    }
}

/// The expression of a value, read where it stands: that of a setting, or of a parameter itself.
/// There is one for the value of each thing of a tree. Takes no memory.
pub fn written<'a>(classes: &'a Classes, source: Source) -> Option<&'a RawExpr>
    ensures value { option_copied result ≡ written_of source.setting (owned_in classes.now source) }
    ensures in_force { (m : RootedModel) (units : List UnitPath) (t : Thing) (b : Attribute)
        → IsRootedTable m classes.now → b.source ≡ source → HasAttribute m units t b
        → (a : Value) × (in_force m t ≡ Some a) × IsAttribute units a b
        × (option_copied result ≡ Some a.value) }
{
    match owned_at(classes, source) {
        Some(owned) => written_in(owned, source.setting),
        None => None,
    }
}
