//! A cell compared with its model: its workspace, in which each phase may be looked through as often as wanted without memory, and the
//! verdict by the phases in their order.
#![tactic(auto)]

mod answers;
mod drives;
mod known_facts;
mod looked;
mod not_compared;
mod opened;
mod phases;
mod verdict;
mod workspace;

pub use answers::{PhaseVerdict, RoomFault};
pub use cell_room::Flattened;
pub use not_compared::{EarlyCell, early, early_prepared};
pub use opened::{with_room, with_room_prepared};
pub use phase_told::Site;
pub use verdict::{Compared, compare, compare_prepared};
pub use workspace::Workspace;
