//! The earliest of the places where a rule is broken.

ghost use Rattle.class_table.specs.Earliest.{IsEarlierOf};

use ar_base::Place;

/// The earlier of two places in the text, as far as there are any. Takes no memory.
pub fn earliest(found: Option<Place>, other: Option<Place>) -> Option<Place>
    ensures { IsEarlierOf found other result }
{
    match found {
        None => other,
        Some(first) => match other {
            None => Some(first),
            Some(second) => {
                if second.is_before(first) {
                    Some(second)
                } else {
                    Some(first)
                }
            }
        },
    }
}
