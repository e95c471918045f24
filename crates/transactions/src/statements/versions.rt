//! The versions of tables, lent.

use mvrows::rows::Rows;
use schema::catalog::Catalog;
use std::alloc::{Allocator, Global};

/// The versions of a catalog's tables.
#[derive(Drop)]
pub struct TableVersions<'v, A: Allocator = Global> {
    pub catalog: &'v Catalog<A>,
    pub rows: &'v Rows<A>,
}
