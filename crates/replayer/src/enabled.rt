//! The lines of ways.

ghost use Rattle.ar_io.specs.Handing.{Writes};
ghost use Rattle.replayer.specs.Listing.{AreInside};
ghost use Rattle.replayer.specs.Printing.{way_lines};

use ar_base::WayId;
use ar_io::{Sink, SinkFailed, write_text};
use gts_core::Gts;
use text_pieces::print_label;

/// Writes the labels of these ways.
pub(crate) fn way_lines<K: Sink>(out: &mut K, gts: &Gts, ways: &[WayId]) -> Result<(), SinkFailed>
    requires { AreInside gts.now ways.now }
    ensures { Writes (K.state out.old) (K.state out.new) (way_lines gts.now ways.now) result }
{
    for way in ways {
        write_text(out, "  ")?;
        print_label(gts, *way, out)?;
        write_text(out, "\n")?;
    }
    Ok(())
}
