//! The places of the module: each region, the deposit pool and the registry of vCPUs, with the log of what each answered.
//!
//! `open_regions`, `open_pool`, `open_split` and `open_places` make them of an image, and `Turns` takes them in turn.
#![tactic(auto)]

mod blocks;
mod kind;
mod kinds;
mod lists;
mod open;
mod place;
mod regions;
mod reopened;
mod start;
mod turns;

pub use blocks::{open_pool, open_split};
pub use kind::Kind;
pub use open::open_places;
pub use place::Place;
pub use regions::open_regions;
pub use reopened::reopen_all;
pub use turns::Turns;
