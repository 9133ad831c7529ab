//! The log of a search: by which arcs labels fell.

pub mod note;
pub mod word_list;
