//! The ways of the events of a flat system that are not dropped, each with its mode variable; what each variable reaches along
//! the edges of its ways; where these break a rule; and the first flow or observer with too many possible values.
#![tactic(auto)]

mod edges;
mod events;
mod kept;
mod listing;
mod modes;
mod moves;
mod names;
mod reaches;
mod rows;
mod searches;
mod searching;
mod sharing;
mod states;

pub use events::{first_joint, first_stateless, marked, moving_units};
pub use kept::{KeptWay, kept_ways, least_action, least_guard};
pub use listing::{Live, live_edges};
pub use modes::{WayMode, way_mode};
pub use moves::{Move, move_at};
pub use reaches::{all_reached, least_again, least_wrong};
pub use searches::{Wide, first_wide};
pub use searching::{Reach, reached};
pub use sharing::{Sharing, shared};
pub use states::first_states;
