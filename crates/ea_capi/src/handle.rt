//! What a handle of C owns.

pub mod content;
pub mod handle;
pub mod raw_box;
pub mod road_search;
pub mod share;
pub mod terrain;
pub mod turned_share;
