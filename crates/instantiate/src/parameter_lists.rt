//! The parameters of a tree.

ghost use Rattle.std.specs.Prelude.{◌≡◌, ◌<◌, ◌^◌, List, IfOk, None, Some, length};
ghost use Rattle.ar_base.specs.Lists.{Along};
ghost use Rattle.class_table.specs.Members.{Parameter};
ghost use Rattle.hierarchy.specs.Models.{RootedModel};
ghost use Rattle.hierarchy.specs.Units.{UnitPath, Thing};
ghost use Rattle.hierarchy.specs.Walks.{is_parameter};
ghost use Rattle.hierarchy.specs.Listing.{parameters as parameters_of};
ghost use Rattle.hierarchy.specs.Tie.{IsParameterNode};
ghost use Rattle.hierarchy.specs.Tie.{AreOutlines};
ghost use Rattle.unit_rules.specs.TypingInside.{KnowsPlaces};
ghost use Rattle.instantiate.specs.Nodes.{IsNodeSo};
ghost use Rattle.instantiate.specs.SettingPlaces.{TellsSettings};
ghost use Rattle.instantiate.specs.Values.{parameter_type};

use crate::domains_of::domain_of;
use crate::nodes::{Listed, nodes};
use crate::setting_places::SettingPlaces;
use crate::values::value_of;
use ar_base::Memory;
use ar_syntax::{Member, TypeForm, Word};
use class_table::{Classes, Owned, owned_at};
use hierarchy::{Attribute, MemNode, Outline, ParNode};
use std::alloc::Global;
use unit_rules::TypePlaces;

/// The parameters of these units, by unit and member, a parameter Real included, whose value has no meaning.
pub fn parameters(
    alloc: Global,
    classes: &Classes,
    outlines: &[Outline],
) -> Result<Vec<ParNode>, Memory>
    requires { length outlines.now < 2 ^ 32 }
    ensures { (m : RootedModel) (units : List UnitPath)
        → AreOutlines m units classes.now outlines.now
        → IfOk result (λ v. Along (IsParameterNode m units) (parameters_of m units) v.items) }
{
    let places = TypePlaces::new(alloc, &classes.types)?;
    let settings = SettingPlaces::new(alloc, classes)?;
    let nodes = nodes(alloc, classes, &places, outlines, Listed::Parameters)?;
    let mut parameters = Vec::new(alloc);
    for node in &nodes {
        parameters.push(parameter(alloc, classes, &places, &settings, outlines, *node)?)?;
    }
    Ok(parameters)
}

// The type of a member that is a parameter; a parameter Real has none.
fn type_of(owned: &Owned) -> Option<Option<TypeForm>>
    ensures { result ≡ parameter_type (Some owned.now) }
{
    match owned {
        Owned::Nested(_, _, _) => None,
        Owned::Plain(member) => match member {
            Member::Parameter(type_name, _, _, _) => Some(Some(type_name.form)),
            Member::Kept(_, _, _) => Some(None),
            _ => None,
        },
    }
}

// The parameter of a node that has no type, whose value has no meaning.
fn untyped(node: MemNode) -> ParNode
    ensures { result ≡ record {
      node = node;
      domain = None;
      value = record { from = node.unit; source = node.source };
    } }
{
    ParNode {
        node,
        domain: None,
        value: Attribute {
            from: node.unit,
            source: node.source,
        },
    }
}

// The parameter of a node.
fn parameter(
    alloc: Global,
    classes: &Classes,
    places: &TypePlaces,
    settings: &SettingPlaces,
    outlines: &[Outline],
    node: MemNode,
) -> Result<ParNode, Memory>
    ensures { (m : RootedModel) (units : List UnitPath) (t : Thing)
        → AreOutlines m units classes.now outlines.now
        → KnowsPlaces classes.now.types.items places.now → TellsSettings m settings.now
        → IsNodeSo m units is_parameter t node
        → IfOk result (IsParameterNode m units t) }
{
    let site = (node.source.body, node.source.member);
    let Some(owned) = owned_at(&classes.bodies, site) else {
        return Ok(untyped(node));
    };
    match type_of(owned) {
        None => Ok(untyped(node)),
        Some(None) => Ok(untyped(node)),
        Some(Some(form)) => {
            let domain = domain_of(classes, places, form)?;
            let mut target = Vec::new(alloc);
            target.push(Word::Name(node.name))?;
            let value = value_of(alloc, settings, outlines, node, target, None)?;
            Ok(ParNode {
                node,
                domain,
                value,
            })
        }
    }
}
