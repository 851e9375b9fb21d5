// The map of foreign aliases: which Node ID stands behind an alias that was seen on the bus.
#![tactic(auto)]

pub mod answer;
pub mod by_alias;
pub mod by_id;
pub mod entry;
pub mod layout;
pub mod map;
pub mod note;
mod remove;
mod search;
