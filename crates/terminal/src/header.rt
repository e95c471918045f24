//! The names of the columns that a SELECT shows.

ghost use Rattle.std.specs.Prelude.{◌≡◌, ◌++◌, ◌∷◌, drop, slice_get, IfOk, IfErr, OnOk};
ghost use Rattle.std.specs.Option.{option_copied};
ghost use Rattle.value.specs.Refusals.{out_of_memory};
ghost use Rattle.terminal.specs.Headers as spec;

use history::event::Action;
use history::list::History;
use history::session_id::SessionId;
use schema::catalog::{Catalog, Column, TableNo, TableSchema};
use shell::shell::Shell;
use statement::statement::{Projection, Statement};
use std::alloc::{AllocError, Allocator, Global};
use std::marker::Model;
use value::refusal::Refusal;

/// The session that asks for rows, and the names of their columns, parted by tabs.
#[derive(Drop)]
pub(crate) struct Header<A: Allocator = Global> {
    pub(crate) session: SessionId,
    pub(crate) names: Vec<u8, A>,
}

impl<A: Allocator> Model for Header<A> {
    ghost use Rattle.terminal.specs.Drawn.{Header as Names};

    ghost Value = { Names };

    ghost view = { λ h. record { session = h.session; names = h.names.items } };
}

// The table of a number, where there is one.
fn table_at<A: Allocator>(catalog: &Catalog<A>, table: TableNo) -> Option<&TableSchema<A>>
    ensures { option_copied result ≡ slice_get catalog.now table }
{
    if catalog.has(table) {
        Some(catalog.table(table))
    } else {
        None
    }
}

// The columns of a table; none where there is no such table.
fn columns_of<A: Allocator>(table: Option<&TableSchema<A>>) -> &[Column<A>]
    ensures { result.now ≡ spec.columns_in (option_copied table.entry) }
{
    match table {
        Some(table) => table.columns(),
        None => &[],
    }
}

// Appends a tab and a name.
fn append_name<A: Allocator>(name: &str, text: &mut Vec<u8, A>) -> Result<(), AllocError>
    ensures { OnOk result (text.new.items ≡ text.old.items ++ (9 ∷ name.now)) }
{
    text.push(b'\t')?;
    text.extend_from_slice(name.as_bytes())
}

// A text without its first byte.
fn without_first<A: Allocator>(alloc: A, text: &[u8]) -> Result<Vec<u8, A>, AllocError>
    ensures { IfOk result (λ t. t.items ≡ drop 1 text.now) }
{
    Vec::from_slice(alloc, &text[text.len().min(1)..])
}

// The names of all columns.
fn all_names<A: Allocator + Copy>(alloc: A, columns: &[Column<A>]) -> Result<Vec<u8, A>, AllocError>
    ensures { IfOk result (λ t. t.items ≡ spec.parted (λ c. c.name) columns.now) }
{
    let mut text = Vec::new(alloc);
    for column in columns {
        append_name(column.name(), &mut text)?;
    }
    without_first(alloc, text.as_slice())
}

// The name of a column, where there is one.
fn name_in<A: Allocator>(column: Option<&Column<A>>) -> &str
    ensures { result.now ≡ spec.name_in (option_copied column.entry) }
{
    match column {
        Some(column) => column.name(),
        None => "",
    }
}

// The name of a table's column of a number, where there is one.
fn name_at<A: Allocator>(columns: &[Column<A>], column: u32) -> &str
    ensures { result.now ≡ spec.name_at columns.now column }
{
    name_in(columns.get(column as usize))
}

// The names of some columns.
fn some_names<A: Allocator + Copy>(
    alloc: A,
    columns: &[Column<A>],
    shown: &[u32],
) -> Result<Vec<u8, A>, AllocError>
    ensures { IfOk result (λ t. t.items ≡ spec.parted (spec.name_at columns.now) shown.now) }
{
    let mut text = Vec::new(alloc);
    for column in shown {
        append_name(name_at(columns, *column), &mut text)?;
    }
    without_first(alloc, text.as_slice())
}

// The names of what is shown of a table's columns.
fn shown_names<A: Allocator + Copy>(
    alloc: A,
    columns: &[Column<A>],
    projection: &Projection<A>,
) -> Result<Vec<u8, A>, AllocError>
    ensures { IfOk result (λ t. t.items ≡ spec.shown_names columns.now projection.now) }
{
    match projection {
        Projection::All => all_names(alloc, columns),
        Projection::Count => Vec::from_slice(alloc, b"count"),
        Projection::Columns(shown) => some_names(alloc, columns, shown.as_slice()),
    }
}

// The header of the rows that an action of a session shows.
fn action_header<A: Allocator + Copy>(
    alloc: A,
    catalog: &Catalog<A>,
    session: SessionId,
    action: &Action<A>,
) -> Result<Option<Header<A>>, Refusal>
    ensures header { IfOk result (λ h. h ≡ spec.headed_by session (spec.action_names catalog.now action.now)) }
    ensures memory { IfErr result (λ e. e ≡ out_of_memory) }
{
    match action {
        Action::Run(Statement::Select(table, projection, _)) => {
            let columns = columns_of(table_at(catalog, *table));
            let names = shown_names(alloc, columns, projection)?;
            Ok(Some(Header { session, names }))
        }
        _ => Ok(None),
    }
}

// The header of the rows that a history's last event shows.
fn last_header<A: Allocator + Copy>(
    alloc: A,
    history: &History<A>,
) -> Result<Option<Header<A>>, Refusal>
    ensures header { IfOk result (λ h. h ≡ spec.last_header history.now.opening.catalog history.now.records) }
    ensures memory { IfErr result (λ e. e ≡ out_of_memory) }
{
    match history.last() {
        Some(last) => action_header(alloc, history.catalog(), last.session, &last.action),
        None => Ok(None),
    }
}

/// The header of the rows that the last event of a shell's server shows, once that runs.
pub(crate) fn header_of<A: Allocator + Copy>(
    alloc: A,
    shell: &Shell<A>,
) -> Result<Option<Header<A>>, Refusal>
    ensures header { IfOk result (λ h. h ≡ spec.header_of shell.now) }
    ensures memory { IfErr result (λ e. e ≡ out_of_memory) }
{
    match shell.core() {
        Some(core) => last_header(alloc, core.history()),
        None => Ok(None),
    }
}
