//! When two worlds answer alike from then on: the law by which schedules that come to equal states can go on as one.

#![tactic(auto)]

pub mod laws;
