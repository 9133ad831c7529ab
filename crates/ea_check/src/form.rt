//! The form of a report: the order of its lines, and what each says.

pub mod ahead;
pub mod kept;
pub mod leading_number;
pub mod line_form;
pub mod number_count;
pub mod plain_lines;
pub mod problem;
pub mod report_lines;
pub mod reported;
pub mod run;
pub mod shared_text;
pub mod stop;
pub mod walk_arcs;
pub mod walk_reader;
