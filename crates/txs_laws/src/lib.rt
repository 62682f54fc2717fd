//! Laws over the definitions: each is the contract of a public function that does nothing.
#![tactic(auto)]

mod answers;
mod channels;
mod decided;
mod filling;
mod items;
mod menus;
mod paths;
mod reading;
mod sets;

pub use answers::{atoms_decide, sat_is_true};
pub use channels::no_channel_is_captured;
pub use decided::{points_have_cells, sat_is_point, unsat_is_none};
pub use filling::{bare_is_under, filled_is_under};
pub use items::{items_are_typed, runs_are_typed, steps_are_typed};
pub use menus::items_are_steps;
pub use paths::paths_are_bounded;
pub use reading::{
    read_is_spelled, spelled_is_one, tables_are_readable, text_is_spelling, written_is_read,
};
pub use sets::{
    closed_is_reached, first_is_after, moved_is_stepped, next_is_after, quiet_is_silent,
};
