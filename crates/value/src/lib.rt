//! The values of a column, the keys made of them, their order, and what a literal stands for.

#![tactic(auto)]

pub mod bytes;
pub mod decimal;
pub mod hexadecimal;
pub mod key;
pub mod kind;
mod literal;
pub mod refusal;
pub mod text;
pub mod value;
