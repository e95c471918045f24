//! Tests alone: the program's words over files in memory, against what it prints and how it ends; drawn interleavings.

#![tactic(auto)]

#[cfg(test)]
mod devices;
#[cfg(test)]
mod draws;
#[cfg(test)]
mod driver;
#[cfg(test)]
mod dumps;
#[cfg(test)]
mod free;
#[cfg(test)]
mod memory;
#[cfg(test)]
mod pieces;
#[cfg(test)]
mod replacing;
#[cfg(test)]
mod worked;
