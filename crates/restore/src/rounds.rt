//! Rounds of lines: they are read by several threads, and later their rows are taken into a table.

ghost use Rattle.std.specs.Prelude.{◌≡◌, ◌<◌, [], length, IfOk};
ghost use Rattle.schema.specs.Definition.{columns_of};
ghost use Rattle.std.specs.Option.{option_copied};
ghost use Rattle.restore.specs.Rounds.{AreTaken, AreTakenAndDrawn, IsReady};

use crate::draws::{DrawnPieces, Draws, PieceReader, ReadPieces};
use crate::error::ReadError;
use crate::lines::{Ahead, FoundRows, find_rows};
use crate::pieces::take_pieces;
use dumpplan::Gate;
use schema::catalog::{Catalog, Column, TableNo};
use schema::tables::Tables;
use std::alloc::Allocator;

/// Pieces that are read, the number of their first line, and the tables that their rows are taken into next.
#[derive(Drop)]
pub struct Round<A: Allocator> {
    pub tables: Tables<A>,
    pub number: u64,
    pub pieces: ReadPieces<A>,
}

impl<A: Allocator> Round<A> {
    /// A round of no lines.
    pub fn new(alloc: A, tables: Tables<A>, number: u64) -> Round<A>
        ensures tables { result.tables ≡ tables }
        ensures number { result.number ≡ number }
        ensures pieces { result.pieces.items ≡ [] }
    {
        Round {
            tables,
            number,
            pieces: Vec::new(alloc),
        }
    }
}

/// The tables with the rows of a round, up to the first that isn't taken.
pub fn take_round<A: Allocator + Copy>(
    alloc: A,
    catalog: &Catalog<A>,
    table: TableNo,
    round: Round<A>,
) -> Result<Tables<A>, ReadError>
    requires has { table < length catalog.now }
    requires ready { IsReady catalog.now table round }
    ensures taken { AreTaken catalog.now table round result }
    ensures same_tables { IfOk result (λ X. length X ≡ length catalog.now) }
{
    let Round {
        mut tables,
        number,
        pieces,
    } = round;
    match take_pieces(alloc, catalog, &mut tables, table, number, pieces) {
        Ok(()) => Ok(tables),
        Err(error) => Err(error),
    }
}

/// The columns of a table.
pub fn columns_of<A: Allocator>(catalog: &Catalog<A>, table: TableNo) -> &[Column<A>]
    requires { table < length catalog.now }
    ensures { result.now ≡ columns_of catalog.now table }
{
    catalog.table(table).columns()
}

/// Takes the rows of a round, looks for the lines of the round after the next, and then draws pieces of the next.
pub fn take_and_draw<'d, G: Gate, A: Allocator + Copy>(
    catalog: &Catalog<A>,
    table: TableNo,
    round: Round<A>,
    reader: &PieceReader<'_, '_, G, A>,
    draws: &Draws,
    ahead: Ahead<'d>,
) -> Result<(Tables<A>, DrawnPieces<A>, FoundRows<'d, A>), ReadError>
    requires has { table < length catalog.now }
    requires ready { IsReady catalog.now table round }
    ensures { AreTakenAndDrawn catalog.now table round (option_copied reader.now.known) reader.now.columns.now
        reader.now.kinds.now reader.now.lines.now ahead.entry.lines.number ahead.entry.lines.text.now result }
{
    let tables = take_round(reader.alloc, catalog, table, round)?;
    let found = find_rows(reader.alloc, ahead)?;
    let drawn = reader.draw_pieces(draws)?;
    Ok((tables, drawn, found))
}
