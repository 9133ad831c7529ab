//! The report's text, and its writer.
#![tactic(auto)]

mod direct_text;
mod lines;
mod pending_text;
mod report;
mod sender;
mod stats;
mod style;
mod text_pieces;
mod time_lines;
mod walk_texts;

pub use direct_text::Direct;
pub use lines::push_node;
pub use report::{ReportOptions, WriteFault, WriteFaultKind, write_problem};
pub use stats::{Totals, write_stats};
pub use style::Style;
pub use text_pieces::write_pieces;
pub use walk_texts::ArcTexts;
