//! Tests alone: each request for memory of the core's calls, of a server's, of the audit's and of whole scripts is
//! refused in turn. After a refusal the call has answered out of memory, the core is as it was, and the call repeated
//! answers as it would have; a script goes on after it, or ends.

#![tactic(auto)]

#[cfg(test)]
mod calls;
#[cfg(test)]
mod driver;
#[cfg(test)]
mod fixture;
#[cfg(test)]
mod played;
#[cfg(test)]
mod resuming;
#[cfg(test)]
mod scripts;
#[cfg(test)]
mod serving;
#[cfg(test)]
mod sinks;
#[cfg(test)]
mod trial;
#[cfg(test)]
mod worked;
