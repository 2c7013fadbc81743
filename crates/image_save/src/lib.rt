//! The saved text of a last state, made from its places.
#![tactic(auto)]

mod cores;
mod law;
mod pages;
mod places;
mod saving;
mod words;

pub use law::made_places_stand;
pub use saving::save;
