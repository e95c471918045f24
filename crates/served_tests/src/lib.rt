//! Tests alone: dumps and restores by workers, passes, the server on threads, and a dump of a core.

#![tactic(auto)]

#[cfg(test)]
mod collectors;
#[cfg(test)]
mod cores;
#[cfg(test)]
mod dumped;
#[cfg(test)]
mod dumping_workers;
#[cfg(test)]
mod fixture;
#[cfg(test)]
mod flaky;
#[cfg(test)]
mod gates;
#[cfg(test)]
mod one_by_one;
#[cfg(test)]
mod passes;
#[cfg(test)]
mod playing;
#[cfg(test)]
mod restoring_workers;
#[cfg(test)]
mod servers;
#[cfg(test)]
mod shown;
