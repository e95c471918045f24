//! Certificates in words: why no order of transactions explains what their clients were answered.

pub mod account;
mod anomaly;
mod cycle;
mod facts;
mod numbers;
mod origins;
mod phrases;
mod sight;
mod telling;
