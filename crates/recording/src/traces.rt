//! That the search for an order (crate orders) never answers no to what is recorded of a legal history.

ghost use Rattle.std.specs.Prelude.{◌≡◌, IsTrue, List};
ghost use Rattle.history.specs.Serial.{IsSerial};
ghost use Rattle.history.specs.Transactions.{Txn, World};
ghost use Rattle.orders.specs.Explains.{Trace as AnyTrace, Unexplained, all_fit};
ghost use Rattle.serial.specs.Laws.{AfterLegal};
ghost use Rattle.recording.specs.Traces.{IsExplainedBy, IsRecording, traces};

use std::alloc::Allocator;

/// Each order that is serial for a legal history explains its traces.
pub fn serial_orders_explain<A: Allocator>()
    ensures { AfterLegal (λ (w : World A). (order : List (Txn A)) → IsSerial w order → IsExplainedBy w order) }
{}

/// Whatever is recorded of what a legal history committed is explained: in any order, by any clock that doesn't go
/// back, with or without the replies to COMMITs, and beside any other transactions to whose COMMIT no reply came. The
/// traces are such a recording. And all statements fit the tables, so
/// an exact search may be asked of it; it never answers no.
pub fn recordings_are_explained<A: Allocator>()
    ensures explained { AfterLegal (λ (w : World A). (rs : List (AnyTrace A)) → IsRecording w rs →
        Unexplained w.catalog w.opening rs → ⊥) }
    ensures fit { AfterLegal (λ (w : World A). (rs : List (AnyTrace A)) → IsRecording w rs → IsTrue (all_fit w.catalog rs)) }
    ensures exact { AfterLegal (λ (w : World A). IsRecording w (traces w)) }
{}
