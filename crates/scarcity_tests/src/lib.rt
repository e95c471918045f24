//! Tests alone: each request for memory of a call is refused in turn. After a refusal the call has answered
//! out of memory, what it was lent is as it was, and the call repeated answers as it would have.

#![tactic(auto)]

#[cfg(test)]
mod catalogs;
#[cfg(test)]
mod copied;
#[cfg(test)]
mod driver;
#[cfg(test)]
mod dumps;
#[cfg(test)]
mod fixture;
#[cfg(test)]
mod kept;
#[cfg(test)]
mod overlaid;
#[cfg(test)]
mod rows;
#[cfg(test)]
mod statements;
#[cfg(test)]
mod texts;
#[cfg(test)]
mod tracked;
#[cfg(test)]
mod values;
#[cfg(test)]
mod versions;
#[cfg(test)]
mod views;
