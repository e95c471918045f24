//! Lines of rows read by several threads.

ghost use Rattle.std.specs.Prelude.{◌≡◌, ◌⊎◌, ◌+◌, ◌<◌, ◌≤◌, Bool, true, false, None, Some, Err, length, map, IfOk};
ghost use denote.Param.Send.{IsSend, IsSync, Frees};
ghost use Rattle.schema.specs.Definition.{columns_of};
ghost use Rattle.schema.specs.Plain.{is_sound};
ghost use Rattle.restore.specs.Lines.{AreFound, AreRowLines};
ghost use Rattle.restore.specs.Progress.{read_in_steps};
ghost use Rattle.restore.specs.Reading.{Before, Within, ended, kinds_of, lines_of, read_lines, read_dump};
ghost use Rattle.restore.specs.Rounds.{AreTakenAndDrawn, IsReady, IsTurn, IsNextRound};
ghost use Rattle.restore.specs.Rows.{AreAllDrawn, AreKnown, ArePieces};
ghost use Rattle.restore.specs.Steps.{Reads, no_memory};

use crate::draws::{
    AllDrawn, DrawnPieces, Draws, PIECE_LINES, PieceReader, ReadPieces, RoundLines,
};
use crate::error::{ReadError, RestoreFault};
use crate::lines::{Ahead, FoundRows, Line, Lines, find_rows, length_of_line};
use crate::pieces::have_references;
use crate::reading::{
    empty_tables, read_copy_line, read_count, read_end, read_end_of_rows, read_head,
};
use crate::rounds::{Round, columns_of, take_and_draw, take_round};
use crate::rows::kinds_of;
use dumpplan::{Gate, Jobs};
use schema::catalog::{Catalog, Column, TableNo};
use schema::tables::Tables;
use std::alloc::{AllocError, Allocator};
use std::thread;
use std::thread::Threads;
use value::kind::Kind;

/// How many pieces of a round there are for each thread at most.
const SHARE: usize = 16;

/// How many pieces of a table's first round there are for each thread at most.
const FIRST_SHARE: usize = 4;

/// How many pieces a round has at most.
const ROUND_PIECES: usize = 128;

/// Threads that read a table's lines in rounds, as many as there are jobs; the calling thread is one of them. Each draws
/// a piece of the round after another. Of a table without references the calling thread first takes the rows of the
/// round before, while the others read. Where the table has some, those rows are taken between the two rounds: what a
/// row references is looked up in the tables as they are once all rows before its round are in. The gate is asked about
/// each piece.
#[derive(Drop)]
pub struct Workers<'w, R, G, A: Allocator> {
    rt: &'w R,
    alloc: A,
    jobs: Jobs,
    gate: &'w G,
    /// How many pieces were read before.
    before: u64,
    /// How many pieces the next round has for each thread at most. The first round has one.
    share: usize,
    /// About how many bytes follow the rows of the table at hand.
    behind: usize,
}

// About how many pieces have three fifths of the bytes that are left of a table, where a line has this length. Their
// rows are taken in less time than the others are read meanwhile. Of a table that is longer than was expected nothing
// is known.
fn most_of(left: usize, line: usize) -> usize {
    if left == 0 {
        return ROUND_PIECES;
    }
    left / 5 * 3 / PIECE_LINES / line.max(1)
}

impl<'w, R: Threads + Sync, G: Gate, A: Allocator + Copy + Send + Sync> Workers<'w, R, G, A> {
    /// Workers that have read nothing.
    pub(crate) fn new(rt: &'w R, alloc: A, jobs: Jobs, gate: &'w G) -> Workers<'w, R, G, A> {
        Workers {
            rt,
            alloc,
            jobs,
            gate,
            before: 0,
            share: 1,
            behind: 0,
        }
    }

    // A table begins, with `left` bytes left for `tables` tables: each is expected to have as many.
    fn begin_table(&mut self, left: usize, tables: usize) {
        self.behind = left.saturating_sub(left / tables.max(1));
    }

    // How many lines a round has at most, where `left` bytes are left of the dump, and a line has `line`. The rows of a
    // table's last round are taken when nothing of it is left to read, so rounds are shorter towards its end.
    fn most_lines(&self, left: usize, line: usize) -> usize {
        let jobs = self.jobs.get() as usize;
        let most = most_of(left.saturating_sub(self.behind), line);
        jobs.saturating_mul(self.share)
            .min(ROUND_PIECES)
            .min(most.max(jobs))
            .saturating_mul(PIECE_LINES)
    }

    // How many lines the first round of a table has at most: few, since they are looked for while no other thread works.
    fn first_round_lines(&self, lines: Lines<'_>) -> usize {
        let few = (self.jobs.get() as usize).saturating_mul(FIRST_SHARE * PIECE_LINES);
        self.most_lines(lines.text.len(), length_of_line(lines.text))
            .min(few)
    }

    // Counts a round of `lines` lines. The next has twice as many pieces.
    fn count_round(&mut self, lines: usize) {
        let pieces = lines.div_ceil(PIECE_LINES) as u64;
        self.before = self.before.saturating_add(pieces);
        self.share = self.share.saturating_mul(2).min(SHARE);
    }

    // The gate.
    fn gate(&self) -> &G {
        self.gate
    }

    // The next round, whose pieces other threads draw while this one takes the rows of the round before, looks for the lines
    // ahead, and then draws some too. None of the rows has references: the tables where these would be looked up change
    // meanwhile.
    fn read_beside<'r, 'd>(
        &'r self,
        catalog: &'r Catalog<A>,
        table: TableNo,
        next: RoundLines<'r, 'd>,
        round: Round<A>,
    ) -> Result<(Round<A>, FoundRows<'d, A>), ReadError>
        requires has { table < length catalog.now }
        requires ready { IsReady catalog.now table round }
        ensures { IsTurn catalog.now table round next.entry result }
    {
        let (rt, alloc, gate) = (self.rt, self.alloc, self.gate());
        // Each part is lent by itself: nothing would be known of what a closure returned that borrowed a reader.
        let RoundLines {
            number,
            before,
            lines,
            kinds,
            ahead,
        } = next;
        let (ahead_number, ahead_text, most) = (ahead.lines.number, ahead.lines.text, ahead.most);
        let columns = columns_of(catalog, table);
        let drawn = Draws::new();
        let (draws, others) = (&drawn, self.jobs.get() as usize - 1);
        let (theirs, mine) = thread::join(
            rt,
            || -> Result<AllDrawn<A>, AllocError>
                requires bounds { IsSend A.row × IsSync A.row × Frees A.Allocator A.dealloc_token × IsSync R.row ×
                    IsSync G.row }
                ensures { IfOk result (λ all. AreAllDrawn None columns.entry.now kinds.entry.now lines.entry.now
                    all.items) }
            {
                let reader = PieceReader::alone(alloc, columns, kinds, lines, before, gate);
                reader.draw_by_threads(rt, others, draws)
            },
            move || -> Result<(Tables<A>, DrawnPieces<A>, FoundRows<'_, A>), ReadError>
                requires { (table < length catalog.now) × IsReady catalog.now table round }
                ensures { AreTakenAndDrawn catalog.entry.now table round None columns.entry.now kinds.entry.now
                    lines.entry.now ahead_number ahead_text.entry.now result }
            {
                let reader = PieceReader::alone(alloc, columns, kinds, lines, before, gate);
                let lines = Lines {
                    number: ahead_number,
                    text: ahead_text,
                };
                take_and_draw(catalog, table, round, &reader, draws, Ahead { lines, most })
            },
        );
        let (tables, mine, found) = mine?;
        let theirs = theirs?;
        let reader = PieceReader::alone(alloc, columns, kinds, lines, before, gate);
        let pieces = reader.gather_both(theirs, mine)?;
        let round = Round {
            tables,
            number,
            pieces,
        };
        Ok((round, found))
    }

    // The pieces of a round, read by as many threads as there are jobs. References are looked up in these tables.
    fn read_pieces<'r>(
        &'r self,
        tables: &'r Tables<A>,
        columns: &'r [Column<A>],
        round: RoundLines<'r, '_>,
    ) -> Result<ReadPieces<A>, AllocError>
        ensures read { IfOk result (λ pieces. ArePieces 1000 round.entry.kinds.now pieces.items
            (map (λ line. line.now) round.entry.lines.now)) }
        ensures known { IfOk result (λ pieces. AreKnown (Some tables.now) columns.now pieces.items) }
    {
        let reader = PieceReader {
            alloc: self.alloc,
            known: Some(tables),
            columns,
            kinds: round.kinds,
            lines: round.lines,
            before: round.before,
            gate: self.gate(),
        };
        reader.read_by_threads(self.rt, self.jobs.get() as usize)
    }

    // The next round, whose lines are read once the rows of the round before are taken: what its rows reference is
    // looked up in the tables with these. The lines ahead are looked for after that.
    fn read_behind<'d>(
        &self,
        catalog: &Catalog<A>,
        table: TableNo,
        next: RoundLines<'_, 'd>,
        round: Round<A>,
    ) -> Result<(Round<A>, FoundRows<'d, A>), ReadError>
        requires has { table < length catalog.now }
        requires ready { IsReady catalog.now table round }
        ensures { IsTurn catalog.now table round next.entry result }
    {
        let (alloc, number, ahead) = (self.alloc, next.number, next.ahead);
        let tables = take_round(alloc, catalog, table, round)?;
        let pieces = self.read_pieces(&tables, columns_of(catalog, table), next)?;
        let found = find_rows(alloc, ahead)?;
        let round = Round {
            tables,
            number,
            pieces,
        };
        Ok((round, found))
    }

    // The next round, and the lines ahead of it: its lines are read, and the rows of the round before are taken.
    fn turn<'d>(
        &self,
        catalog: &Catalog<A>,
        table: TableNo,
        next: RoundLines<'_, 'd>,
        round: Round<A>,
    ) -> Result<(Round<A>, FoundRows<'d, A>), ReadError>
        requires has { table < length catalog.now }
        requires ready { IsReady catalog.now table round }
        ensures { IsTurn catalog.now table round next.entry result }
    {
        if self.jobs.get() == 1 || have_references(columns_of(catalog, table)) {
            self.read_behind(catalog, table, next, round)
        } else {
            self.read_beside(catalog, table, next, round)
        }
    }

    // The next round, of lines that are found; what is left after it, and the lines that are found there. The rows of
    // the round before are taken.
    fn next_round<'d>(
        &mut self,
        found: (Line<'d>, Vec<&'d [u8], A>, Lines<'d>),
        catalog: &Catalog<A>,
        table: TableNo,
        kinds: &[Kind],
        round: Round<A>,
    ) -> Result<(Lines<'d>, Round<A>, FoundRows<'d, A>), ReadError>
        requires has { table < length catalog.now }
        requires ready { IsReady catalog.now table round }
        requires kinds { kinds.now ≡ kinds_of catalog.now table }
        requires number { found.0.rest.number ≡ found.0.number + 1 }
        requires rows { AreRowLines found.0 found.1.items found.2 }
        ensures begun { IsNextRound catalog.now table round found.entry.0 result }
        ensures ready { IfOk result (λ x. IsReady catalog.now table x.1) }
        ensures left { IfOk result (λ x. x.0 ≡ found.entry.2) }
        ensures found { IfOk result (λ x. AreFound x.0.number x.0.text.now x.2) }
    {
        let (line, lines, left) = found;
        let before = self.before;
        self.count_round(lines.len());
        let most = self.most_lines(left.text.len(), line.bytes.len());
        let next = RoundLines {
            number: line.number,
            before,
            lines: lines.as_slice(),
            kinds,
            ahead: Ahead { lines: left, most },
        };
        let (round, found) = self.turn(catalog, table, next, round)?;
        Ok((left, round, found))
    }

    // The rows of a table, and the line after them.
    fn read_rows<'d>(
        &mut self,
        mut lines: Lines<'d>,
        catalog: &Catalog<A>,
        table: TableNo,
        tables: Tables<A>,
    ) -> Result<(Lines<'d>, Tables<A>), ReadError>
        requires has { table < length catalog.now }
        requires same_tables { length tables ≡ length catalog.now }
        ensures rows { (counted : Bool) →
            Reads (λ x. read_lines x.0.number (ended counted catalog.now x.1 table) (lines_of x.0.text.now)) result
            (read_lines lines.entry.number (Within counted catalog.now tables table)
            (lines_of lines.entry.text.now)) }
        ensures same_tables { IfOk result (λ x. length x.1 ≡ length catalog.now) }
        ensures sound { IfOk result (λ x. is_sound catalog.now tables ≡ true → is_sound catalog.now x.1 ≡ true) }
    {
        let tables_left = catalog.len().saturating_sub(table.place() as usize);
        self.begin_table(lines.text.len(), tables_left);
        let kinds = kinds_of(self.alloc, catalog.table(table).columns())?;
        let most = self.first_round_lines(lines);
        let mut round = Round::new(self.alloc, tables, lines.number);
        let mut found = find_rows(self.alloc, Ahead { lines, most })?;
        loop {
            match found {
                Some(rows) => {
                    let (left, next, more) = self.next_round(
                        rows,
                        catalog,
                        table,
                        kinds.as_slice(),
                        round,
                    )?;
                    lines = left;
                    round = next;
                    found = more;
                }
                None => {
                    let tables = take_round(self.alloc, catalog, table, round)?;
                    let rest = read_end_of_rows(lines, catalog, &tables, table)?;
                    return Ok((rest, tables));
                }
            }
        }
    }

    // A table: its COPY line, its rows, and their number.
    fn read_table<'d>(
        &mut self,
        lines: Lines<'d>,
        counted: bool,
        catalog: &Catalog<A>,
        table: TableNo,
        tables: Tables<A>,
    ) -> Result<(Lines<'d>, Tables<A>), ReadError>
        requires has { table < length catalog.now }
        requires same_tables { length tables ≡ length catalog.now }
        ensures rows { Reads (λ x. read_lines x.0.number (Before counted catalog.now x.1 (table + 1))
            (lines_of x.0.text.now)) result
            (read_lines lines.entry.number (Before counted catalog.now tables table)
            (lines_of lines.entry.text.now)) }
        ensures same_tables { IfOk result (λ x. length x.1 ≡ length catalog.now) }
        ensures sound { IfOk result (λ x. is_sound catalog.now tables ≡ true → is_sound catalog.now x.1 ≡ true) }
    {
        let rows = read_copy_line(self.alloc, lines, catalog, table)?;
        let (count, tables) = self.read_rows(rows, catalog, table, tables)?;
        let rest = read_count(self.alloc, count, counted, catalog, table, &tables)?;
        Ok((rest, tables))
    }

    // The tables, in the order of their creation.
    fn read_tables<'d>(
        &mut self,
        mut lines: Lines<'d>,
        counted: bool,
        catalog: &Catalog<A>,
        mut tables: Tables<A>,
    ) -> Result<(Lines<'d>, Tables<A>), ReadError>
        requires { length tables ≡ length catalog.now }
        ensures rows { Reads (λ x. read_lines x.0.number (Before counted catalog.now x.1 (length catalog.now))
            (lines_of x.0.text.now)) result
            (read_lines lines.entry.number (Before counted catalog.now tables 0) (lines_of lines.entry.text.now)) }
        ensures sound { IfOk result (λ x. is_sound catalog.now tables ≡ true → is_sound catalog.now x.1 ≡ true) }
    {
        for place in 0..catalog.len() as u32 {
            let (left, taken) = self.read_table(
                lines,
                counted,
                catalog,
                TableNo::at(place),
                tables,
            )?;
            lines = left;
            tables = taken;
        }
        Ok((lines, tables))
    }

    // The catalog and tables of a dump.
    fn read_dump(&mut self, dump: &[u8]) -> Result<(Catalog<A>, Tables<A>), ReadError>
        ensures dump { Reads (λ x. Ok x) result (read_in_steps dump.now) }
        ensures sound { IfOk result (λ x. is_sound x.0 x.1 ≡ true) }
    {
        let lines = Lines {
            number: 1,
            text: dump,
        };
        let (counted, catalog, lines) = read_head(self.alloc, lines)?;
        let tables = empty_tables(self.alloc, &catalog)?;
        let (lines, tables) = self.read_tables(lines, counted, &catalog, tables)?;
        read_end(lines, &catalog, &tables)?;
        Ok((catalog, tables))
    }
}

/// Reads a dump as `restore_one` does. The lines of a table's rows are read in rounds, by up to `jobs` threads side by
/// side, of which the calling thread is one. Where the table has no references and `jobs` is more than one, that takes
/// the rows of the round before while the others read. Otherwise it takes them between the two rounds: what a row
/// references is looked up in the tables as they are once all rows before its round are in. The gate is asked round
/// each piece of up to 1000 lines; these are numbered from 1 in the order of the dump.
pub fn restore<R: Threads + Sync, G: Gate, A: Allocator + Copy + Send + Sync>(
    rt: &R,
    alloc: A,
    dump: &[u8],
    jobs: Jobs,
    gate: &G,
) -> Result<(Catalog<A>, Tables<A>), RestoreFault>
    ensures dump { (result ≡ read_dump dump.now) ⊎ (result ≡ Err no_memory) }
    ensures sound { IfOk result (λ x. is_sound x.0 x.1 ≡ true) }
{
    let mut workers = Workers::new(rt, alloc, jobs, gate);
    match workers.read_dump(dump) {
        Ok(found) => Ok(found),
        Err(error) => Err(error.fault()),
    }
}
