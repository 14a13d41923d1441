//! What a broken rule of the static fragment is shown with.

ghost use Rattle.std.specs.Prelude.{◌≡◌, IfOk};
ghost use Rattle.ar_base.specs.Texts.{text_at};
ghost use Rattle.static_fragment.specs.Recognised.{spot_of};
ghost use Rattle.job_stages.specs.Spots.{path_in};

use ar_base::{Memory, Text};
use ar_io::text_at;
use gts_core::GtsParts;
use static_fragment::Spot;
use std::alloc::Global;
use text_pieces::pieces::{event_path, observer_path, variable_path};

/// The canonical path of what a broken rule is shown with; `main` for the whole model.
pub fn path_of(alloc: Global, parts: &GtsParts, spot: Spot) -> Result<Text, Memory>
    ensures { IfOk result (λ path. path ≡ path_in parts.now (spot_of spot)) }
{
    let text = String::from_str(alloc, path_at(parts, spot))?;
    Ok(Text::new(text))
}

// The same as it stands in the parts.
fn path_at(parts: &GtsParts, spot: Spot) -> &str
    ensures { result.now ≡ path_in parts.now (spot_of spot) }
{
    match spot {
        Spot::Event(event) => event_path(parts, event.n),
        Spot::Unit(unit) => text_at(&parts.units, unit.n),
        Spot::Variable(variable) => variable_path(parts, variable.n),
        Spot::Observer(observer) => observer_path(parts, observer),
        Spot::Whole => "main",
    }
}
