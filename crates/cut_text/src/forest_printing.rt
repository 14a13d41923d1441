//! The lines of a forest.

ghost use Rattle.std.specs.Prelude.{◌≡◌, ◌<◌, ◌^◌};
ghost use Rattle.ar_io.specs.Handing.{Writes};
ghost use Rattle.mode_trees.specs.Ways.{HasOwnWay, HaveOwnWays, OwnTheirWays};
ghost use Rattle.cut_text.specs.ForestPrinted.{edge_line, edge_lines, tree_line, trees_text, edge_count, forest_text};

use ar_io::{Sink, SinkFailed, write_count, write_text};
use gts_core::{Gts, GtsParts, write_value};
use mode_trees::{Edge, Forest, ModeTree};
use text_pieces::pieces::variable_path;
use text_pieces::print_label;

/// Writes the text of a forest of the system: for each tree `tree PATH at VALUE` with its variable and its initial mode, then
/// a line for each of its edges, in their order, with the mode that it leaves, the label of its way and the mode that it enters,
/// and last `events N` with the number of edges. Takes no memory.
pub fn print_forest<K: Sink>(gts: &Gts, forest: &Forest, out: &mut K) -> Result<(), SinkFailed>
    requires inside { OwnTheirWays gts.now forest.now.trees.items }
    requires few { edge_count forest.now.trees.items < 2 ^ 64 }
    ensures { Writes (K.state out.old) (K.state out.new) (forest_text gts.now forest.now) result }
{
    trees(out, gts, &forest.trees)?;
    let edges = edges_in(&forest.trees);
    write_text(out, "events ")?;
    write_count(out, edges)?;
    write_text(out, "\n")
}

// How many edges the trees have.
fn edges_in(trees: &[ModeTree]) -> usize
    requires { edge_count trees.now < 2 ^ 64 }
    ensures { result ≡ edge_count trees.now }
{
    let mut edges = 0;
    for tree in trees {
        edges += tree.edges.len();
    }
    edges
}

// The lines of these trees.
fn trees<K: Sink>(out: &mut K, gts: &Gts, trees: &[ModeTree]) -> Result<(), SinkFailed>
    requires { OwnTheirWays gts.now trees.now }
    ensures { Writes (K.state out.old) (K.state out.new) (trees_text gts.now trees.now) result }
{
    for one in trees {
        root(out, gts.parts(), one)?;
        edges(out, gts, &one.edges)?;
    }
    Ok(())
}

// A tree's variable and its initial mode.
fn root<K: Sink>(out: &mut K, parts: &GtsParts, tree: &ModeTree) -> Result<(), SinkFailed>
    ensures { Writes (K.state out.old) (K.state out.new) (tree_line parts.now tree.now) result }
{
    write_text(out, "tree ")?;
    write_text(out, variable_path(parts, tree.variable.n))?;
    write_text(out, " at ")?;
    write_value(out, parts, tree.first)?;
    write_text(out, "\n")
}

// The lines of these edges.
fn edges<K: Sink>(out: &mut K, gts: &Gts, edges: &[Edge]) -> Result<(), SinkFailed>
    requires { HaveOwnWays gts.now edges.now }
    ensures { Writes (K.state out.old) (K.state out.new) (edge_lines gts.now edges.now) result }
{
    for edge in edges {
        edge_line(out, gts, *edge)?;
    }
    Ok(())
}

// The line of an edge.
fn edge_line<K: Sink>(out: &mut K, gts: &Gts, edge: Edge) -> Result<(), SinkFailed>
    requires { HasOwnWay gts.now edge }
    ensures { Writes (K.state out.old) (K.state out.new) (edge_line gts.now edge) result }
{
    let parts = gts.parts();
    write_text(out, "  ")?;
    write_value(out, parts, edge.from)?;
    write_text(out, " ")?;
    print_label(gts, edge.way, out)?;
    write_text(out, " ")?;
    write_value(out, parts, edge.to)?;
    write_text(out, "\n")
}
