//! The text of a piece of a dump.

ghost use Rattle.std.specs.Prelude.{◌≡◌, length, IfOk, IfErr};
ghost use Rattle.value.specs.Refusals.{out_of_memory};
ghost use Rattle.dumpplan.specs.Pieces.{piece_text, IsPieceOf};

use dumpplan::text::{end_text, head_text};
use dumpplan::{Piece, range_text};
use schema::catalog::Catalog;
use schema::reader::SnapshotReader;
use std::alloc::Allocator;
use value::refusal::Refusal;

/// The text of a piece of the dump of a reader's tables, which are the catalog's.
pub fn encode_piece<A: Allocator + Copy, R: SnapshotReader<A>>(
    alloc: A,
    reader: &R,
    catalog: &Catalog<A>,
    piece: &Piece<A>,
) -> Result<Vec<u8, A>, Refusal>
    requires counted { length (R.tables reader.now) ≡ length catalog.now }
    requires known { IsPieceOf (length catalog.now) piece.now }
    ensures ok { IfOk result (λ text. text.items ≡ piece_text catalog.now (R.tables reader.now) piece.now) }
    ensures memory { IfErr result (λ e. e ≡ out_of_memory) }
{
    match piece {
        Piece::Head => head_text(alloc, catalog),
        Piece::Rows(range) => range_text(alloc, reader, catalog.table(range.table), range),
        Piece::End => Ok(Vec::from_slice(alloc, end_text())?),
    }
}
