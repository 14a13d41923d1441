//! What follows from the definition of the text of a flat system.

ghost use Rattle.std.specs.Prelude.{◌≡◌};
ghost use Rattle.ar_base.specs.Lists.{AreDifferent};
ghost use Rattle.gts_core.specs.Printed.{flat_text};
ghost use Rattle.gts_core.specs.Sound.{IsSound};
ghost use Rattle.gts_core.specs.declared.system.GtsParts.{GtsParts};
ghost use Rattle.gts_flatten.specs.Elaborating.{Elaborated};
ghost use Rattle.gts_flatten.specs.Flat.{IsFlat};
ghost use Rattle.hierarchy.specs.Listing.{events};

/// Two flat systems of one source, both of sound parts, have one text, where no event of the source
/// is listed twice.
pub fn one_flat_text()
    ensures { (x : Elaborated) → AreDifferent (events x.declarations.model x.declarations.units)
        → (p q : GtsParts) → IsSound p → IsSound q → IsFlat x p → IsFlat x q
        → flat_text p ≡ flat_text q }
{}
