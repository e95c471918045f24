//! What the tests share: an opening, and a barrier between threads.

ghost use Rattle.std.specs.Prelude.{◌≡◌, true, IfOk};
ghost use Rattle.schema.specs.Plain.{is_sound};

use dumpplan::Gate;
use schema::catalog::Catalog;
use schema::tables::Tables;
use sqltext::create::parse_create;
use std::alloc::Global;
use std::sync::atomic::{AtomicBool, Ordering};
use std::thread;
use value::refusal::{Code, Refusal};

/// The refusal of a test that can't go on. No tried call answers it.
pub(crate) fn not_asked() -> Refusal {
    Refusal::of_code(Code::SyntaxError)
}

/// A catalog of tables that have a key alone, and their rows: none.
pub(crate) fn opening(alloc: Global, names: &[&str]) -> Result<(Catalog, Tables), Refusal>
    ensures { IfOk result (λ made. is_sound made.0 made.1 ≡ true) }
{
    let mut catalog = Catalog::new(alloc);
    for name in names {
        let text = format!(in alloc; "CREATE TABLE {name} (id bigint PRIMARY KEY);")?;
        catalog.add(alloc, parse_create(alloc, text.as_str())?)?;
    }
    let tables = Tables::new(alloc, &catalog)?;
    if !tables.sound(&catalog) {
        return Err(not_asked());
    }
    Ok((catalog, tables))
}

/// How often a thread yields before a wait is given up: some seconds.
pub(crate) const MOST_TURNS: u32 = 10_000_000;

/// Whether the flag is set in time.
pub(crate) fn comes(flag: &AtomicBool) -> bool {
    for _ in 0..MOST_TURNS {
        if flag.load(Ordering::SeqCst) {
            return true;
        }
        thread::yield_now();
    }
    false
}

/// A gate that is open until a session shuts it: then SELECTs and dumps wait at it.
#[derive(Drop)]
pub(crate) struct Barrier {
    pub(crate) is_open: AtomicBool,
    pub(crate) is_reached: AtomicBool,
    is_late: AtomicBool,
}

impl Barrier {
    pub(crate) fn open() -> Barrier {
        Barrier {
            is_open: AtomicBool::new(true),
            is_reached: AtomicBool::new(false),
            is_late: AtomicBool::new(false),
        }
    }

    /// Whether one has waited in vain.
    pub(crate) fn is_late(&self) -> bool {
        self.is_late.load(Ordering::SeqCst)
    }
}

impl Gate for Barrier {
    fn before(&self, _piece: u64) {
        self.is_reached.store(true, Ordering::SeqCst);
        if !comes(&self.is_open) {
            self.is_late.store(true, Ordering::SeqCst);
        }
    }

    fn after(&self, _piece: u64) {}
}
