//! Which limit of sizes a tree of units passes, and which names, clones, aliases and settings in it are wrong.
//!
//! The sizes of the members of each body are counted once, and what settings may set is listed once for a unit, so the cost
//! is linear in the text, in the members of the bodies, inherited ones included, in the units with their names, and in the
//! words of the settings that hold in them. Of a declaration with a wrong setting, those behind it are tested in one unit.
#![tactic(auto)]

mod counts;
mod declarations;
mod expressions;
mod left;
mod limits;
mod members;
mod naming;
mod repeats;
mod settables;
mod sites;
mod statements;
mod targets;
mod totals;
mod types;
mod wrong;

pub use declarations::{first_wrong_declaration, is_flow, is_state};
pub use limits::fit;
pub use naming::name_units;
pub use repeats::word_code;
pub use sites::settings_of;
pub use statements::{first_looping, first_lost};
pub use types::TypePlaces;
pub use wrong::first_wrong_setting;
