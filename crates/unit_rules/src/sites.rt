//! What is set in members.

ghost use Rattle.std.specs.Prelude.{◌≡◌, Some};
ghost use Rattle.hierarchy.specs.Settings.{settings_of as settings_of_member};

use ar_syntax::{Member, Setting};
use class_table::Owned;

/// The settings of a member: those of a declaration, else none.
pub fn settings_of(owned: &Owned) -> &[Setting]
    ensures { result.now ≡ settings_of_member (Some owned.now) }
{
    match owned {
        Owned::Nested(_, _, _) => &[],
        Owned::Plain(member) => match member {
            Member::Declare(_, _, settings) => settings,
            _ => &[],
        },
    }
}
