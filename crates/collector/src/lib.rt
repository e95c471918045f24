//! The device that takes the bytes of a dump, and the pieces of a dump written in their order.

#![tactic(auto)]

mod answers;
mod device;
mod gather;
mod sequence;

pub use answers::{Finish, OfferFault};
pub use device::{Device, DeviceError, write_all};
pub use gather::Collector;
