//! The program `pgserial`: scripts of sessions, and dumps, over files.

#![tactic(auto)]

pub mod arguments;
mod course;
pub mod dumping;
pub mod explaining;
pub mod fault;
pub mod faulty;
pub mod files;
mod free;
pub mod host;
pub mod keeping;
pub mod late;
pub mod machine;
mod manner;
pub mod naming;
pub mod opening;
mod output;
pub mod progress;
pub mod reasons;
pub mod remarks;
pub mod replacing;
mod restoring;
mod run;
pub mod shown;
mod steps;
mod task;
mod whole;
pub mod words;
mod workers;
mod writing;
