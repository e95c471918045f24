//! How transactions end, and what an end leaves in the versions of rows.

pub(crate) mod commit;
pub(crate) mod owed;
pub(crate) mod settle;
