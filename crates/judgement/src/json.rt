//! What is printed of a judgement, in JSON.

pub mod judged;
mod telling;
mod text;
pub mod told;
