//! Tests of two sessions on threads.

ghost use Rattle.std.specs.Prelude.{◌≡◌, []};
ghost use Rattle.history.specs.Answer.{Allowed};

use crate::fixture::opening;
use history::event::{Action, Event};
use pass::keeper::Keeper;
use pass::token::Pass;
use pass::word::{FirstSeat, HistoryWord, Naming};
use session::sessions::Core;
use std::alloc::Global;
use std::marker::Brand;
use std::process::Abort;
use std::thread::{Threads, join};
use value::refusal::{Mode, Refusal};

#[test]
fn two_sessions_in_threads(rt: HostRuntime) -> Result<(), Refusal> {
    let alloc = rt.alloc();
    let (catalog, tables) = opening(alloc, &[])?;
    let core = Core::open(alloc, catalog, tables, 10)?;
    let opened = core.history();
    let tables = opened.copy_tables(alloc)?;
    let (word, first) = HistoryWord::new(alloc, opened.catalog(), &tables, opened.base())?;
    step_and_stamp::<Brand, _>(&rt, alloc, &word, first, core)
}

// Events of one session are recorded, and then each session's pass stamps in a thread of its own.
fn step_and_stamp<J: Naming<Global> + Send + Sync, R: Threads + Abort + Sync>(
    rt: &R,
    alloc: Global,
    word: &HistoryWord,
    first: FirstSeat,
    mut core: Core,
) -> Result<(), Refusal>
    requires word { word.now ≡ record { table = J.table; opening = J.opening } }
    requires first { first ≡ J.table }
    requires core { (core.opening ≡ J.opening) × (core.records ≡ []) }
{
    core.is_legal();
    let mut keeper = Keeper::<J>::first(word, first);
    let mut one = keeper.pass();
    let two = keeper.pass();
    assert_eq!(rt; (one.session().number(), two.session().number()), (1, 2));
    do_event(
        alloc,
        &mut core,
        &mut keeper,
        &mut one,
        Action::Begin(Mode::ReadWrite),
    );
    do_event(alloc, &mut core, &mut keeper, &mut one, Action::Rollback);
    let ((mut one, first_rises), (mut two, second_rises)) = join(
        rt,
        move || stamped(one),
        move || stamped(two),
    );
    assert!(rt; first_rises && second_rises);
    do_event(alloc, &mut core, &mut keeper, &mut one, Action::Prune);
    two.meet(&mut one);
    assert_eq!(rt; (one.stamp(), two.stamp()), (3, 3));
    Ok(())
}

// One event that takes no statement, done and, where it was, recorded.
#[tactic(auto, using(pass::proofs::Prefixes::snoc_last))]
fn do_event<'w, J: Naming<Global>>(
    alloc: Global,
    core: &mut Core,
    keeper: &mut Keeper<'w, J>,
    pass: &mut Pass<'w, J>,
    action: Action,
)
    requires opening { core.old.opening ≡ J.opening }
    requires same { keeper.old.records ≡ core.old.records }
    requires allowed { Allowed core.old.opening.catalog action }
    ensures opening { core.new.opening ≡ J.opening }
    ensures same { keeper.new.records ≡ core.new.records }
{
    let before = core.history().records().len();
    let session = pass.session();
    core.step(alloc, Event { session, action });
    if core.history().records().len() > before {
        let Some(last) = core.history().last() else {
            unreachable!()
        };
        keeper.record(pass, last);
    } else {
        keeper.show(pass);
    }
}

// A pass that has stamped, and whether no stamp fell, and the last was 2.
fn stamped<'w, J: Naming<Global>>(mut pass: Pass<'w, J>) -> (Pass<'w, J>, bool) {
    let mut last = 0;
    let mut rises = true;
    for _ in 0..1000 {
        let stamp = pass.stamp();
        rises = rises && last <= stamp;
        last = stamp;
    }
    (pass, rises && last == 2)
}
