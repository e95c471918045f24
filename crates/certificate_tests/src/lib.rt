//! Tests alone: worked certificates, and each with a line changed; and the certificates that are found.

#![tactic(auto)]

#[cfg(test)]
mod anomalies;
#[cfg(test)]
mod cases;
#[cfg(test)]
mod counted;
#[cfg(test)]
mod examples;
#[cfg(test)]
mod found;
#[cfg(test)]
mod recorded;
#[cfg(test)]
mod recordings;
#[cfg(test)]
mod words;
