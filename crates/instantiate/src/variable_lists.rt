//! The variables of a tree.

ghost use Rattle.std.specs.Prelude.{◌≡◌, ◌<◌, ◌^◌, List, length, IfOk, OnOk};
ghost use Rattle.ar_base.specs.Lists.{Along};
ghost use Rattle.hierarchy.specs.Models.{RootedModel};
ghost use Rattle.hierarchy.specs.Units.{UnitPath, Thing};
ghost use Rattle.hierarchy.specs.Walks.{is_variable};
ghost use Rattle.hierarchy.specs.Listing.{variables as variables_of};
ghost use Rattle.hierarchy.specs.Settings.{target_word_of};
ghost use Rattle.hierarchy.specs.Tie.{IsVariableNode};
ghost use Rattle.hierarchy.specs.Tie.{AreOutlines};
ghost use Rattle.unit_rules.specs.TypingInside.{KnowsPlaces};
ghost use Rattle.instantiate.specs.Nodes.{IsNodeSo};
ghost use Rattle.instantiate.specs.SettingPlaces.{TellsSettings};
ghost use Rattle.instantiate.specs.Values.{KeepsDeclarations, AddsVariable, last_target_word};

use crate::domains_of::domain_of;
use crate::nodes::{Listed, nodes};
use crate::setting_places::SettingPlaces;
use crate::types_of::type_of;
use crate::values::value_of;
use ar_base::Memory;
use ar_syntax::Word;
use class_table::{Classes, owned_at};
use hierarchy::{MemNode, Outline, VarNode};
use std::alloc::Global;
use unit_rules::{TypePlaces, is_state, settings_of};

/// The variables of these units, by unit and member, where each declaration of variables has one setting, called
/// `init` or `reset`.
pub fn variables(
    alloc: Global,
    classes: &Classes,
    outlines: &[Outline],
) -> Result<Vec<VarNode>, Memory>
    requires { length outlines.now < 2 ^ 32 }
    ensures { (m : RootedModel) (units : List UnitPath)
        → AreOutlines m units classes.now outlines.now
        → KeepsDeclarations m units
        → IfOk result (λ v. Along (IsVariableNode m units) (variables_of m units) v.items) }
{
    let places = TypePlaces::new(alloc, &classes.types)?;
    let settings = SettingPlaces::new(alloc, classes)?;
    let nodes = nodes(alloc, classes, &places, outlines, Listed::Variables)?;
    let mut variables = Vec::new(alloc);
    for node in &nodes {
        add_variable(
            alloc,
            classes,
            &places,
            &settings,
            outlines,
            &mut variables,
            *node,
        )?;
    }
    Ok(variables)
}

// The last word of the target of a state variable or a flow.
fn last_word(is_state: bool) -> Word
    ensures { target_word_of result ≡ last_target_word is_state }
{
    if is_state { Word::Init } else { Word::Reset }
}

// Adds the variable of a node, where its member declares variables.
fn add_variable(
    alloc: Global,
    classes: &Classes,
    places: &TypePlaces,
    settings: &SettingPlaces,
    outlines: &[Outline],
    variables: &mut Vec<VarNode>,
    node: MemNode,
) -> Result<(), Memory>
    ensures { (m : RootedModel) (units : List UnitPath) (t : Thing)
        → AreOutlines m units classes.now outlines.now
        → KnowsPlaces classes.now.types.items places.now → TellsSettings m settings.now
        → KeepsDeclarations m units
        → IsNodeSo m units is_variable t node
        → OnOk result (AddsVariable m units t variables.old.items variables.new.items) }
{
    let site = (node.source.body, node.source.member);
    let Some(owned) = owned_at(&classes.bodies, site) else {
        return Ok(());
    };
    let Some(form) = type_of(owned) else {
        return Ok(());
    };
    let Some(domain) = domain_of(classes, places, form)? else {
        return Ok(());
    };
    let is_state = is_state(settings_of(owned));
    let mut target = Vec::new(alloc);
    target.push(Word::Name(node.name))?;
    target.push(last_word(is_state))?;
    let value = value_of(alloc, settings, outlines, node, target, Some(0))?;
    variables.push(VarNode {
        node,
        domain,
        is_state,
        value,
    })?;
    Ok(())
}
