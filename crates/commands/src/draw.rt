//! `pgserial draw`: a script's run as a picture, over files.

mod doing;
mod task;
pub mod words;
