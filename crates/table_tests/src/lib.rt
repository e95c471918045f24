//! Tests alone: values, references between tables, versions of rows, and the tracker of conflicts.

#![tactic(auto)]

#[cfg(test)]
mod cases;
#[cfg(test)]
mod conflicts;
#[cfg(test)]
mod locks;
#[cfg(test)]
mod numbers;
#[cfg(test)]
mod snapshots;
#[cfg(test)]
mod tables;
#[cfg(test)]
mod values;
#[cfg(test)]
mod versions;
