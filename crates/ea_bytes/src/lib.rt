//! Bytes from and to devices, and texts as lines, fields and numbers.
#![tactic(auto)]

mod device;
mod fault_counts;
mod field;
mod line;
mod number_field;
mod std_in;
mod std_out;

pub use device::{ByteIn, ByteOut, Device, DeviceFault};
pub use fault_counts::{Counts, fault_of, no_faults};
pub use field::{KEPT_FIELDS, fields, first_field, is_blank, is_comment};
pub use line::{first_line, without_return};
pub use number_field::number;
pub use std_in::StdIn;
pub use std_out::StdOut;
