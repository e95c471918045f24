//! What an event is answered, before anything changes.

pub mod answered;
pub mod course;
pub(crate) mod decide;
pub mod reply;
