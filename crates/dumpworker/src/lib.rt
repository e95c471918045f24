//! The dump of a snapshot's tables to a device, by workers or by the calling thread alone.

#![tactic(auto)]

mod alone;
mod counter;
mod encode;
mod ending;
mod fault;
mod shelf;
mod source;
mod workers;
mod write;

pub use alone::dump_one;
pub use encode::encode_piece;
pub use fault::DumpFault;
pub use write::dump;
