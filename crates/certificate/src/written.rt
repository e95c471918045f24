//! Certificates as texts: what a certificate's lines are written as, and what a text reads as.

mod error;
mod naming;
mod reading;
mod words;
mod writing;

pub use error::ReadError;
pub use naming::Naming;
pub use reading::read;
pub use writing::write;
