//! From the bytes of a model to its flat system.

ghost use Rattle.std.specs.Prelude.{◌≡◌, ◌≤◌, length};
ghost use Rattle.ar_base.specs.Counts.{limit_of};
ghost use Rattle.ar_base.specs.StagesInside.{Meets};
ghost use Rattle.ar_base.specs.declared.counts.Count.TheVariants.{ModelBytes};
ghost use Rattle.hierarchy.specs.ModelsInside.{IsKeptTable};
ghost use Rattle.job_stages.specs.Elaborates.{Parses, Tables, Systems, Elaborates};
ghost use Rattle.job_stages.specs.Passing.{IsStageOf, IsFlattened};

use crate::jobs::word_of;
use crate::stops::Stop;
use ar_base::{RuleFault, Text};
use ar_parser::parse;
use ar_syntax::Model;
use bind_names::bind;
use class_table::{Classes, declaring_laws, table};
use gts_core::Gts;
use gts_flatten::flatten;
use hierarchy::Tree;
use hierarchy::laws::tables_are_rooted;
use instantiate::instantiate;
use std::alloc::Global;

/// The tree of a model's main block, and its flat system.
#[derive(Drop)]
pub struct Flattened {
    /// The tree.
    pub tree: Tree,
    /// The flat system.
    pub system: Gts,
}

/// The system that the text means from the main block of this name, else from the last.
pub fn elaborate(alloc: Global, text: Vec<u8>, main: &Option<Text>) -> Result<Flattened, Stop>
    requires { length text.items ≤ limit_of ModelBytes }
    ensures { IsStageOf IsFlattened (Elaborates main.now text.items) result }
{
    let model = model_of(alloc, text)?;
    let flattened = system_of(alloc, model, main)?;
    Ok(flattened)
}

// The tree of the text, which is let go.
fn model_of(alloc: Global, text: Vec<u8>) -> Result<Model, Stop>
    requires { length text.items ≤ limit_of ModelBytes }
    ensures { IsStageOf (λ m model. model ≡ m) (Parses text.items) result }
{
    let model = parse(alloc, &text)?;
    Ok(model)
}

// The system that the model means.
fn system_of(alloc: Global, model: Model, main: &Option<Text>) -> Result<Flattened, RuleFault>
    ensures { Meets (Systems main.now) IsFlattened model result }
{
    let classes = classes_of(alloc, model, main)?;
    let tree = instantiate(alloc, classes)?;
    let bound = bind(alloc, &tree)?;
    let system = flatten(alloc, &bound)?;
    Ok(Flattened { tree, system })
}

// The table of the model, seen from its main block.
fn classes_of(alloc: Global, model: Model, main: &Option<Text>) -> Result<Classes, RuleFault>
    ensures { Meets (Tables main.now) IsKeptTable model result }
{
    // What a model declares is one thing, and its table keeps the model as it is seen from there.
    declaring_laws();
    tables_are_rooted();
    let classes = table(alloc, model, word_of(main))?;
    Ok(classes)
}
