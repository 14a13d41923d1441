//! The units depth first, within the limits.

ghost use Rattle.std.specs.Prelude.{◌≡◌, ◌+◌, ◌≤◌, ◌++◌, ◌∷◌, ℕ, length, List, [], map, true, Some, IfOk, IfErr, OnOk};
ghost use Rattle.ar_base.specs.Lists.{Stands};
ghost use Rattle.class_table.specs.Members.{NamedMember, Clone};
ghost use Rattle.hierarchy.specs.Models.{RootedModel};
ghost use Rattle.hierarchy.specs.ModelsInside.{IsKeptTable};
ghost use Rattle.hierarchy.specs.Units.{UnitPath, body_of, kind_at};
ghost use Rattle.hierarchy.specs.Listing.{is_inner};
ghost use Rattle.unit_walks.specs.Forms.{IsFormsFor, IsUnitName};
ghost use Rattle.unit_walks.specs.Tables.{table_paths, IsWalkTable, EndsNowhere};
ghost use Rattle.unit_walks.specs.UnfoldingInside.{RefusesUnits};
ghost use Rattle.unit_walks.specs.Growing.{IsMadeBy, HasGrown, HasGrownInside, HasPassed, HasPassedInside, IsUnfolded};
ghost use Rattle.unit_walks.specs.declared.growing.Node.{Node as NodeOf};

use crate::forms::{Forms, UnitForm, UnitName};
use crate::indexing::forms_of;
use crate::tables::{Known, Table, start_table};
use crate::walking::known;
use ar_base::{Count, Memory, NameId, RuleFault, UnitId};
use ar_syntax::Path;
use class_table::Classes;
use hierarchy::Outline;
use std::alloc::Global;

/// A unit of the tree.
#[derive(Clone, Copy)]
pub(crate) struct Node {
    /// Its number in the table of walks.
    pub unit: u32,
    /// The unit without its names.
    pub outline: Outline,
}

/// The units of a main block, and what was found on the way to them.
#[derive(Drop)]
pub struct Unfolded<'a> {
    /// The units, depth first.
    pub outlines: Vec<Outline>,
    pub(crate) nodes: Vec<Node>,
    pub(crate) forms: Forms<'a>,
    pub(crate) table: Table,
}

/// The units of the main block of a table that keeps the rules L1 to L5, depth first: blocks,
/// instances and clones, in member order. An error is the limit of depth or of units that the first
/// units pass, the first of them that does deciding, or want of memory.
pub fn units(alloc: Global, classes: &Classes) -> Result<Unfolded<'_>, RuleFault>
    ensures ok { (m : RootedModel) → IsKeptTable m classes.now
        → IfOk result (λ r. (units : List UnitPath) × IsUnfolded m units r) }
    ensures limit { (m : RootedModel) → IsKeptTable m classes.now → IfErr result (RefusesUnits m) }
    ensures few { IfOk result (λ r. (length r.outlines.items ≤ 16384)
        × (length r.nodes.items ≤ 16384)) }
{
    let forms = forms_of(alloc, classes)?;
    let mut table = start_table(alloc, classes.main)?;
    let mut nodes = Vec::new(alloc);
    grow_unit(
        alloc,
        &forms,
        &mut table,
        &mut nodes,
        None,
        0,
        Count::Depth.limit(),
    )?;
    let outlines = outlines_of(alloc, &nodes)?;
    Ok(Unfolded {
        outlines,
        nodes,
        forms,
        table,
    })
}

// The unit that a block, an instance or a clone makes in the unit, if it makes one.
fn inner_unit(
    alloc: Global,
    forms: &Forms,
    table: &mut Table,
    unit: u32,
    name: NameId,
) -> Result<Option<u32>, Memory>
    ensures { (m : RootedModel) (u : UnitPath) (g : NamedMember) → IsFormsFor m forms.now
        → IsWalkTable m [] table.old → Stands (table_paths table.old) unit u → g.name ≡ name.n
        → kind_at m u g.name ≡ Some g.kind → is_inner g.kind ≡ true
        → IfOk result (IsMadeBy m table.old table.new u g) }
{
    match known(alloc, forms, table, unit, name)? {
        Known::ToUnit(made) => Ok(Some(made)),
        Known::Nothing => Ok(None),
        Known::Loops => Ok(None),
        Known::Following => Ok(None),
    }
}

// The unit that the name makes in the unit, if it makes one.
fn made(
    alloc: Global,
    forms: &Forms,
    table: &mut Table,
    unit: u32,
    named: &UnitName,
) -> Result<Option<u32>, Memory>
    ensures { (m : RootedModel) (u : UnitPath) (g : NamedMember) → IsFormsFor m forms.now
        → IsWalkTable m [] table.old → Stands (table_paths table.old) unit u → IsUnitName named.now g
        → kind_at m u g.name ≡ Some g.kind → IfOk result (IsMadeBy m table.old table.new u g) }
{
    match named.form {
        UnitForm::Alias(_) => Ok(None),
        UnitForm::Inner(_, _) => inner_unit(alloc, forms, table, unit, named.name),
        UnitForm::Clone(path) => {
            if is_lost(forms, table, unit, path) {
                return Ok(None);
            }
            inner_unit(alloc, forms, table, unit, named.name)
        }
    }
}

// Whether the path of a clone begins with a name that is no unit where it begins, so that no walk is needed: such a clone
// may stand in far more units than a tree has nodes.
fn is_lost(forms: &Forms, table: &Table, unit: u32, path: &Path) -> bool
    ensures { result ≡ true → (m : RootedModel) (u : UnitPath) (x : ℕ) → IsFormsFor m forms.now
        → IsWalkTable m [] table.now → Stands (table_paths table.now) unit u
        → kind_at m u x ≡ Some (Clone path.now) → EndsNowhere m u x }
{
    let Some(start) = table.start(path.start, unit) else {
        return false;
    };
    let Some(first) = path.names.first() else {
        return false;
    };
    let Some(there) = table.unit(start) else {
        return false;
    };
    match forms.form(there.body, *first) {
        None => true,
        Some(_) => false,
    }
}

fn push_node(nodes: &mut Vec<Node>, node: Node) -> Result<(), Memory>
    ensures { OnOk result (nodes.new.items ≡ nodes.old.items ++ node ∷ []) }
{
    nodes.push(node)?;
    Ok(())
}

// Adds a unit and those in it; there may be so many more levels.
#[cycle(grow)]
fn grow_unit(
    alloc: Global,
    forms: &Forms,
    table: &mut Table,
    nodes: &mut Vec<Node>,
    owner: Option<UnitId>,
    unit: u32,
    room: u32,
) -> Result<(), RuleFault>
    requires { length nodes.old.items ≤ 16384 }
    ensures small { OnOk result (length nodes.new.items ≤ 16384) }
    ensures ok { (m : RootedModel) (u : UnitPath) → IsFormsFor m forms.now → IsWalkTable m [] table.old
        → Stands (table_paths table.old) unit u → length u + room ≡ 64
        → OnOk result (HasGrown m u owner table.old table.new nodes.old.items nodes.new.items) }
    ensures limit { (m : RootedModel) (u : UnitPath) → IsFormsFor m forms.now
        → IsWalkTable m [] table.old → Stands (table_paths table.old) unit u → length u + room ≡ 64
        → IfErr result (HasPassed m u owner nodes.old.items) }
{
    if room == 0 {
        return Err(RuleFault::Limit(Count::Depth));
    }
    let at = nodes.len();
    if at >= 16_384 {
        return Err(RuleFault::Limit(Count::Units));
    }
    let Some(met) = table.unit(unit) else {
        return Ok(());
    };
    let outline = Outline {
        name: met.name,
        owner,
        body: met.body,
        set_at: met.set_at,
    };
    let node = Node { unit, outline };
    push_node(nodes, node)?;
    grow_insides(
        alloc,
        forms,
        table,
        nodes,
        UnitId::new(at as u32),
        node,
        room - 1,
    )
}

// Adds what is in a unit, whose number is `at`.
#[cycle(grow)]
fn grow_insides(
    alloc: Global,
    forms: &Forms,
    table: &mut Table,
    nodes: &mut Vec<Node>,
    at: UnitId,
    node: Node,
    room: u32,
) -> Result<(), RuleFault>
    requires { length nodes.old.items ≤ 16384 }
    ensures small { OnOk result (length nodes.new.items ≤ 16384) }
    ensures ok { (m : RootedModel) (u : UnitPath) → IsFormsFor m forms.now → IsWalkTable m [] table.old
        → Stands (table_paths table.old) node.unit u → node.outline.body.n ≡ body_of m u
        → length u + 1 + room ≡ 64
        → OnOk result
        (HasGrownInside m u at.n table.old table.new nodes.old.items nodes.new.items) }
    ensures limit { (m : RootedModel) (u : UnitPath) → IsFormsFor m forms.now
        → IsWalkTable m [] table.old → Stands (table_paths table.old) node.unit u
        → node.outline.body.n ≡ body_of m u → length u + 1 + room ≡ 64
        → IfErr result (HasPassedInside m u at.n nodes.old.items) }
{
    let Some(names) = forms.list(node.outline.body) else {
        return Ok(());
    };
    for named in names {
        match made(alloc, forms, table, node.unit, named)? {
            None => {}
            Some(inner) => grow_unit(alloc, forms, table, nodes, Some(at), inner, room)?,
        }
    }
    Ok(())
}

// The units without their numbers in the table of walks.
fn outlines_of(alloc: Global, nodes: &[Node]) -> Result<Vec<Outline>, Memory>
    ensures { IfOk result (λ outlines. outlines.items ≡ map (λ (n : NodeOf). n.outline) nodes.now) }
{
    let mut outlines = Vec::new(alloc);
    for node in nodes {
        outlines.push(node.outline)?;
    }
    Ok(outlines)
}
