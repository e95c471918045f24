//! COPY text: what a field and a row are written as, and what a line reads as.

#![tactic(auto)]

mod escape;
mod fields;
mod law;
mod reading;
mod writing;

pub use law::reads_what_is_written;
pub use reading::{read_key_row, read_row};
pub use writing::{write_field, write_row, write_values};
