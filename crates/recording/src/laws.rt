//! What is read of a run's transcript, in every legal history.

ghost use Rattle.std.specs.Prelude.{List};
ghost use Rattle.history.specs.Transactions.{World};
ghost use Rattle.orders.specs.Explains.{Trace as AnyTrace, Unexplained};
ghost use Rattle.program.specs.Files.{writing_of};
ghost use Rattle.recording.specs.Printed.{OfTheDone, OfTheStopped};
ghost use Rattle.recording.specs.Runs.{AreOpened, AreRead, OfTranscripts};
ghost use Rattle.recording.specs.Traces.{IsRecording};

use program::files::Stored;
use sqltext::laws::the_first_fault_is_refused;
use std::alloc::Allocator;

/// What the transcript of a script's run is read as is a recording of the run's history. So there is an order that explains
/// it, with or without time, and an exact search for one never answers no.
pub fn transcripts_are_recordings<A: Allocator>()
    ensures recording { OfTranscripts (λ (w : World A) (rs : List (AnyTrace A)). IsRecording w rs) }
    ensures explained { OfTranscripts (λ (w : World A) (rs : List (AnyTrace A)). Unexplained w.catalog w.opening rs → ⊥) }
{}

/// The transcript of a run is read, unless a COMMIT was refused without an event.
pub fn transcripts_are_read<A: Allocator>()
    ensures { AreRead A }
{}

/// What is read as its beginning are the tables that the script creates, or the dump that it opens.
pub fn transcripts_begin_with_their_tables<A: Allocator>()
    ensures { AreOpened A }
{}

/// What `run --transcript` prints, whatever its script does, is the transcript of a legal history from the script's tables:
/// of all its lines where it has done them, else of the lines that it has done, if it has printed anything. So what is read
/// of it is a recording of that history. A checkpoint goes on with the history, and a dump is no event of it. 64 bits hold
/// the numbers of the history's replies, and no row is without fields (`AreSmall`).
pub fn printed_transcripts_are_recordings<A: Allocator, F: Stored>()
    ensures done { OfTheDone A (writing_of F.Out.path F.Out.kept F.Out.failures) }
    ensures stopped { OfTheStopped A (writing_of F.Out.path F.Out.kept F.Out.failures) }
{
    the_first_fault_is_refused::<A>();
}
