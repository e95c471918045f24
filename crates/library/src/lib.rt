//! What the library answers to a call: bytes in, bytes out, without files and threads.

#![tactic(auto)]

mod backing;
pub mod checking;
pub mod embedded;
pub mod ending;
pub mod exploring;
mod lines;
pub mod manner;
pub mod output;
pub mod prepared;
mod preparing;
mod printing;
pub mod restored;
mod tape;
