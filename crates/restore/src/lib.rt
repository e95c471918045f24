//! Reading a dump back.

#![tactic(auto)]

mod create;
mod draws;
mod error;
mod law;
mod lines;
mod pieces;
mod reading;
mod rounds;
mod rows;
mod sound;
mod text;
mod workers;

pub use error::RestoreFault;
pub use law::{reads_by_its_lines, reads_what_is_dumped};
pub use reading::restore_one;
pub use sound::reads_sound_tables;
pub use workers::restore;
