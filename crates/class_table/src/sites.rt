//! Members by where they stand.

ghost use Rattle.std.specs.Prelude.{◌≡◌, option_copied};
ghost use Rattle.ar_base.specs.Lists.{Along};
ghost use Rattle.class_table.specs.Declaring.{Declared};
ghost use Rattle.class_table.specs.Members.{owned_at as declared_at};
ghost use Rattle.class_table.specs.TablesInside.{IsBodyOf, site_of};

use crate::tables::{Body, Owned};
use ar_base::BodyId;

/// The member at a place of a body, or None where nothing stands there. Takes no memory.
pub fn owned_at(bodies: &[Body], site: (BodyId, u32)) -> Option<&Owned>
    ensures { (d : Declared) → Along IsBodyOf bodies.now d.bodies
        → option_copied result ≡ declared_at d (site_of site) }
{
    match bodies.get(site.0.n as usize) {
        Some(body) => body.own.get(site.1 as usize),
        None => None,
    }
}
