//! How a transaction stands and what it sees, apart from what its statements have done.

ghost use Rattle.std.specs.Prelude.{◌≡◌, true};
ghost use Rattle.transactions.specs.Courses.{on_course};
ghost use Rattle.transactions.specs.Ledger.{kept};
ghost use Rattle.transactions.specs.Standings.{standing_of};

use crate::exports::snapshots::ExportedSnapshot;
use crate::transaction::{Standing, Transaction};
use std::alloc::Allocator;

/// How a transaction stands and what it sees: all that an event may turn of it but for what
/// statements add.
#[derive(Clone, Copy)]
pub struct Course {
    pub standing: Standing,
    /// The place at which it was over; 0 while it is open.
    pub end: u64,
    /// The number of its commit; 0 where it has none.
    pub commit: u64,
    /// It sees the commits up to this number.
    pub snapshot: u64,
    /// The place at which its snapshot was taken.
    pub taken: u64,
    /// Its snapshot is another's.
    pub imported: bool,
    /// Its snapshot is known to be safe.
    pub known: bool,
    /// A statement or an EXPORT was answered without a refusal.
    pub asked: bool,
}

impl<A: Allocator> Transaction<A> {
    /// Its course.
    pub fn course(&self) -> Course
        ensures course { on_course result self.now ≡ kept self.now }
        ensures same { kept self.now ≡ self.now }
    {
        Course {
            standing: self.standing,
            end: self.end,
            commit: self.commit,
            snapshot: self.snapshot,
            taken: self.taken,
            imported: self.imported,
            known: self.known,
            asked: self.asked,
        }
    }

    /// The course on which it stands so, and its end stays as it is.
    pub fn stands(&self, standing: Standing) -> Course
        ensures { on_course result self.now ≡ kept (record self.now { standing = standing_of standing }) }
    {
        Course {
            standing,
            ..self.course()
        }
    }

    /// The course on which it is over with the event at a place.
    pub fn ends(&self, standing: Standing, place: u64) -> Course
        ensures course { on_course result self.now ≡
            kept (record self.now { standing = standing_of standing; end = place }) }
        ensures same { kept self.now ≡ self.now }
    {
        Course {
            standing,
            end: place,
            ..self.course()
        }
    }

    /// The course on which it has committed as this number, with the event at a place.
    pub fn commits(&self, commit: u64, place: u64) -> Course
        ensures course { on_course result self.now ≡ kept
            (record self.now { standing = standing_of Standing.Done; end = place; commit = commit }) }
        ensures same { kept self.now ≡ self.now }
    {
        Course {
            standing: Standing::Done,
            end: place,
            commit,
            ..self.course()
        }
    }

    /// The course on which it has a snapshot of so many commits, taken at a place.
    pub fn sees(&self, snapshot: u64, taken: u64, known: bool) -> Course
        ensures { on_course result self.now ≡ kept
            (record self.now { snapshot = snapshot; taken = taken; known = known }) }
    {
        Course {
            snapshot,
            taken,
            known,
            ..self.course()
        }
    }

    /// The course on which it has an exported snapshot for its own.
    pub fn imports(&self, source: &ExportedSnapshot) -> Course
        ensures { on_course result self.now ≡ kept
            (record self.now {
              snapshot = source.now.snapshot;
              taken = source.now.taken;
              imported = true;
              known
                  = source.now.known;
            }) }
    {
        Course {
            snapshot: source.snapshot,
            taken: source.taken,
            imported: true,
            known: source.known,
            ..self.course()
        }
    }

    /// The course on which it has asked.
    pub fn asks(&self) -> Course
        ensures { on_course result self.now ≡ kept (record self.now { asked = true }) }
    {
        Course {
            asked: true,
            ..self.course()
        }
    }

    /// Takes it to a course.
    pub fn take(&mut self, course: Course)
        ensures { self.new ≡ on_course course self.old }
    {
        self.standing = course.standing;
        self.end = course.end;
        self.commit = course.commit;
        self.snapshot = course.snapshot;
        self.taken = course.taken;
        self.imported = course.imported;
        self.known = course.known;
        self.asked = course.asked;
    }
}
