//! What a script is played with while one request for memory is refused: the count of requests.

use crate::driver::Memory;
use crate::fixture::not_asked;
use backup::SafeDumpFault;
use dumpworker::DumpFault;
use value::refusal::{Code, Refusal};

/// Why there is no dump: the view's refusal, or out of memory.
pub fn refusal_of(fault: SafeDumpFault) -> Refusal {
    match fault {
        SafeDumpFault::View(refusal) => refusal,
        SafeDumpFault::Dump(DumpFault::Memory) => Refusal::of_code(Code::OutOfMemory),
        SafeDumpFault::Dump(DumpFault::Device) => not_asked(),
    }
}

/// A request that is refused, by its number, how many were made, and how many calls were repeated.
#[derive(Clone, Copy)]
pub struct Trial {
    number: u64,
    pub made: u64,
    pub repeated: u64,
}

impl Trial {
    /// A trial in which this request is refused, counted from 1; 0 refuses none.
    pub fn of(number: u64) -> Trial {
        Trial {
            number,
            made: 0,
            repeated: 0,
        }
    }

    /// From here on requests are counted, and the one may be refused. Returns how many the memory has had.
    pub fn begin(&self, memory: &Memory) -> u64 {
        memory.refuse(self.number.saturating_sub(self.made));
        memory.requests()
    }

    /// Ends the counting of requests, and returns whether any was made.
    pub fn end(&mut self, memory: &Memory, start: u64) -> bool {
        memory.refuse(0);
        let made = memory.requests().wrapping_sub(start);
        self.made = self.made.wrapping_add(made);
        made > 0
    }

    /// What is refused, out of memory, is to be repeated. A POLL and a ROLLBACK never are so refused.
    pub fn repeat(&mut self, asked: &str, refusal: Refusal) -> Result<(), Refusal> {
        if refusal != Refusal::of_code(Code::OutOfMemory) {
            return Err(refusal);
        }
        if asked.ends_with("POLL") || asked.ends_with("ROLLBACK") {
            return Err(not_asked());
        }
        self.repeated = self.repeated.wrapping_add(1);
        Ok(())
    }
}
