//! `pgserial shell` at a terminal: shows a prompt, and answers at once what is typed.

mod drawn;
mod prompted;
mod recalled;
mod refused;
pub mod words;
