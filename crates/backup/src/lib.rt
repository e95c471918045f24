//! Backups: a dump of a session's safe snapshot, which is a state of the serial order.

#![tactic(auto)]

mod alone;
mod fault;
mod safe;
mod write;

pub use alone::dump_session_one;
pub use fault::SafeDumpFault;
pub use safe::dump_safe;
pub use write::dump_session;
