//! A dump of a core's safe snapshot, by the calling thread alone.

use crate::fixture::{not_asked, opening};
use crate::shown::NO_ROW;
use backup::dump_session_one;
use dumpplan::PieceRows;
use history::event::{Action, Event};
use history::session_id::SessionId;
use scarce::tape::Tape;
use session::sessions::Core;
use value::refusal::{Mode, Refusal};

#[test]
fn a_core_is_dumped_by_one_thread(rt: HostRuntime) -> Result<(), Refusal> {
    let alloc = rt.alloc();
    let (catalog, tables) = opening(alloc, &["a", "b"])?;
    let mut core = Core::open(alloc, catalog, tables, 10)?;
    let session = SessionId::new(1).ok_or(not_asked())?;
    for action in [Action::Begin(Mode::Deferrable), Action::Poll] {
        let _reply = core.step(alloc, Event { session, action });
    }
    let rows = PieceRows::new(9).ok_or(not_asked())?;
    let mut tape = Tape::new(alloc);
    let done = dump_session_one(alloc, &core, session, rows, &mut tape);
    assert!(rt; done.is_ok() && tape.taken.as_slice() == NO_ROW);
    Ok(())
}
