//! The pieces of a round of lines, each read by the thread that draws it.

ghost use Rattle.std.specs.Prelude.{◌≡◌, ◌<◌, ◌≤◌, ◌+◌, ◌*◌, ◌/◌, ◌%◌, [], ℕ, List, Option, None, min, map, take, drop, length, vec_len, IfOk, IfSome};
ghost use Rattle.std.specs.Borrow.{Bor};
ghost use Rattle.std.specs.Option.{option_copied};
ghost use Rattle.value.specs.declared.kind.Kind.{Kind};
ghost use Rattle.schema.specs.Definition.{Column as AnyColumn};
ghost use Rattle.schema.specs.declared.tables.Tables.{Tables};
ghost use Rattle.restore.specs.Rows.{lines_at, IsPiece, AreDrawn, AreAllDrawn, AreAt, ArePieces, AreKnown};

use crate::lines::Ahead;
use crate::pieces::piece_of;
use crate::rows::{ReadPiece, read_each};
use dumpplan::Gate;
use schema::catalog::Column;
use schema::tables::Tables;
use std::alloc::{AllocError, Allocator};
use std::sync::atomic::{AtomicUsize, Ordering};
use std::thread;
use std::thread::Threads;
use value::kind::Kind;

/// How many lines a piece has at most.
pub const PIECE_LINES: usize = 1000;

/// What each piece of a round reads as.
pub type ReadPieces<A> = Vec<Result<ReadPiece<A>, AllocError>, A>;

/// The pieces that one thread has drawn.
pub type DrawnPieces<A> = Vec<Drawn<A>, A>;

/// The pieces that threads have drawn, by thread.
pub type AllDrawn<A> = Vec<Result<DrawnPieces<A>, AllocError>, A>;

/// The lines of rows that are read as one round.
#[derive(Clone, Copy)]
pub struct RoundLines<'l, 'd> {
    /// The number of the first.
    pub number: u64,
    /// How many pieces of the dump come before.
    pub before: u64,
    pub lines: &'l [&'d [u8]],
    /// The kinds of their values.
    pub kinds: &'l [Kind],
    /// Where the lines of the round after it are looked for.
    pub ahead: Ahead<'d>,
}

/// Reads the pieces of a round's lines.
#[derive(Drop)]
pub struct PieceReader<'r, 'd, G, A: Allocator> {
    pub alloc: A,
    /// The tables in which references are looked up.
    pub known: Option<&'r Tables<A>>,
    /// The columns of the table whose rows the lines are.
    pub columns: &'r [Column<A>],
    /// The kinds of their values.
    pub kinds: &'r [Kind],
    pub lines: &'r [&'d [u8]],
    /// How many pieces of the dump come before.
    pub before: u64,
    /// The gate that is asked about each piece.
    pub gate: &'r G,
}

/// A piece that a thread has drawn and read, and its place in the round.
#[derive(Drop)]
pub struct Drawn<A: Allocator> {
    pub place: usize,
    pub piece: ReadPiece<A>,
}

/// How many pieces of a round are drawn. Nothing rests on it but what is read twice: a piece is put where it stands, and
/// one that no thread has drawn is read when the others are.
#[derive(Drop)]
pub struct Draws {
    count: AtomicUsize,
}

impl Draws {
    /// No piece is drawn yet.
    pub fn new() -> Draws {
        Draws {
            count: AtomicUsize::new(0),
        }
    }

    // The place of the next piece.
    fn draw(&self) -> usize {
        self.count.fetch_add(1, Ordering::SeqCst)
    }
}

// How many pieces `lines` lines have.
fn piece_count(lines: usize) -> usize
    ensures { result ≡ lines / 1000 + min 1 (lines % 1000) }
{
    lines.div_ceil(PIECE_LINES)
}

// Where the piece at a place begins among `lines` lines; at their end, where there is none.
fn start_of(lines: usize, place: usize) -> usize
    ensures start { result ≡ min (place * 1000) lines }
    ensures within { result ≤ lines }
{
    place.saturating_mul(PIECE_LINES).min(lines)
}

// The lines after the first `count`.
fn lines_behind<'l, 'd>(lines: &'l [&'d [u8]], count: usize) -> &'l [&'d [u8]]
    requires { count ≤ length lines.now }
    ensures { result.now ≡ drop count lines.now }
{
    let (_, rest) = lines.split_at(count);
    rest
}

// The first of some lines, `most` of them at most.
fn first_lines<'l, 'd>(lines: &'l [&'d [u8]], most: usize) -> &'l [&'d [u8]]
    ensures { result.now ≡ take most lines.now }
{
    let (first, _) = lines.split_at(most.min(lines.len()));
    first
}

// The lines of the piece at a place; none after the last piece.
fn piece_lines<'l, 'd>(lines: &'l [&'d [u8]], place: usize) -> &'l [&'d [u8]]
    ensures { result.now ≡ take 1000 (drop (place * 1000) lines.now) }
{
    let rest = lines_behind(lines, start_of(lines.len(), place));
    first_lines(rest, PIECE_LINES)
}

// The number of the piece at a place of a round, where `before` pieces come before the round.
fn number_at(before: u64, place: usize) -> u64 {
    before.saturating_add(place as u64).saturating_add(1)
}

// `count` places, each without a piece.
fn empty_places<A: Allocator>(
    alloc: A,
    count: usize,
) -> Result<Vec<Option<ReadPiece<A>>, A>, AllocError>
    ensures count { IfOk result (λ places. vec_len places ≡ count) }
    ensures empty { (known : Option (Tables A)) (columns : List AnyColumn) (kinds : List Kind)
        (lines : List (Bor (List ℕ))) → IfOk result (λ places. AreAt known columns kinds lines places.items) }
{
    let mut places: Vec<Option<ReadPiece<A>>, A> = Vec::with_capacity(alloc, count)?;
    for _ in 0..count {
        places.push(None)?;
    }
    Ok(places)
}

// Puts a piece that a thread has drawn at its place.
fn put_piece<A: Allocator>(places: &mut Vec<Option<ReadPiece<A>>, A>, drawn: Drawn<A>)
    ensures count { length places.new.items ≡ length places.old.items }
    ensures at { (known : Option (Tables A)) (columns : List AnyColumn) (kinds : List Kind)
        (lines : List (Bor (List ℕ))) → IsPiece known columns kinds drawn.piece (lines_at lines drawn.place) →
        AreAt known columns kinds lines places.old.items → AreAt known columns kinds lines places.new.items }
{
    let Drawn { place, piece } = drawn;
    if place >= places.len() {
        return;
    }
    places[place] = Some(piece);
}

// Puts pieces that a thread has drawn at their places.
fn put_drawn<A: Allocator>(places: &mut Vec<Option<ReadPiece<A>>, A>, drawn: DrawnPieces<A>)
    ensures count { length places.new.items ≡ length places.old.items }
    ensures at { (known : Option (Tables A)) (columns : List AnyColumn) (kinds : List Kind)
        (lines : List (Bor (List ℕ))) → AreDrawn known columns kinds lines drawn.items →
        AreAt known columns kinds lines places.old.items → AreAt known columns kinds lines places.new.items }
{
    for piece in drawn {
        put_piece(places, piece);
    }
}

// `count` places with the pieces that threads have drawn.
fn placed<A: Allocator>(
    alloc: A,
    count: usize,
    all: AllDrawn<A>,
) -> Result<Vec<Option<ReadPiece<A>>, A>, AllocError>
    ensures count { IfOk result (λ places. vec_len places ≡ count) }
    ensures at { (known : Option (Tables A)) (columns : List AnyColumn) (kinds : List Kind)
        (lines : List (Bor (List ℕ))) → AreAllDrawn known columns kinds lines all.items →
        IfOk result (λ places. AreAt known columns kinds lines places.items) }
{
    let mut places = empty_places(alloc, count)?;
    for made in all {
        let drawn = made?;
        put_drawn(&mut places, drawn);
    }
    Ok(places)
}

impl<'r, 'd, G: Gate, A: Allocator + Copy> PieceReader<'r, 'd, G, A> {
    /// A reader of pieces whose references are looked up nowhere.
    pub fn alone(
        alloc: A,
        columns: &'r [Column<A>],
        kinds: &'r [Kind],
        lines: &'r [&'d [u8]],
        before: u64,
        gate: &'r G,
    ) -> PieceReader<'r, 'd, G, A>
        ensures known { result.known ≡ None }
        ensures columns { result.columns.now ≡ columns.now }
        ensures kinds { result.kinds.now ≡ kinds.now }
        ensures lines { result.lines.now ≡ lines.now }
    {
        PieceReader {
            alloc,
            known: None,
            columns,
            kinds,
            lines,
            before,
            gate,
        }
    }

    // The piece of some lines, for which the gate is asked.
    fn read_piece(&self, lines: &[&[u8]], number: u64) -> Result<ReadPiece<A>, AllocError>
        ensures { IfOk result (λ piece. IsPiece (option_copied self.now.known) self.now.columns.now
            self.now.kinds.now piece (map (λ line. line.now) lines.now)) }
    {
        self.gate.before(number);
        let read = read_each(self.alloc, self.kinds, lines);
        self.gate.after(number);
        let rows = read?;
        Ok(piece_of(self.known, self.columns, rows))
    }

    /// Draws pieces, and reads each, until all are drawn.
    pub fn draw_pieces(&self, draws: &Draws) -> Result<DrawnPieces<A>, AllocError>
        ensures { IfOk result (λ drawn. AreDrawn (option_copied self.now.known) self.now.columns.now
            self.now.kinds.now self.now.lines.now drawn.items) }
    {
        let all = self.lines;
        let mut drawn = Vec::new(self.alloc);
        for _ in 0..all.len() {
            let place = draws.draw();
            let lines = piece_lines(all, place);
            if lines.is_empty() {
                return Ok(drawn);
            }
            let piece = self.read_piece(lines, number_at(self.before, place))?;
            drawn.push(Drawn { place, piece })?;
        }
        Ok(drawn)
    }

    // The piece at a place. Where no thread has drawn it, it is read now.
    fn piece_at(
        &self,
        place: usize,
        drawn: Option<ReadPiece<A>>,
    ) -> Result<ReadPiece<A>, AllocError>
        requires { IfSome drawn (λ piece. IsPiece (option_copied self.now.known) self.now.columns.now
            self.now.kinds.now piece (lines_at self.now.lines.now place)) }
        ensures { IfOk result (λ piece. IsPiece (option_copied self.now.known) self.now.columns.now
            self.now.kinds.now piece (lines_at self.now.lines.now place)) }
    {
        match drawn {
            Some(piece) => Ok(piece),
            None => {
                let lines = piece_lines(self.lines, place);
                self.read_piece(lines, number_at(self.before, place))
            }
        }
    }

    // The pieces at some places, in the order of their lines.
    fn in_order(&self, places: Vec<Option<ReadPiece<A>>, A>) -> Result<ReadPieces<A>, AllocError>
        requires enough { length self.now.lines.now ≤ vec_len places * 1000 }
        requires at { AreAt (option_copied self.now.known) self.now.columns.now self.now.kinds.now
            self.now.lines.now places.items }
        ensures read { IfOk result (λ pieces. ArePieces 1000 self.now.kinds.now pieces.items
            (map (λ line. line.now) self.now.lines.now)) }
        ensures known { IfOk result (λ pieces. AreKnown (option_copied self.now.known) self.now.columns.now
            pieces.items) }
    {
        let mut pieces = Vec::with_capacity(self.alloc, places.len())?;
        for drawn in places {
            let place = pieces.len();
            let piece = self.piece_at(place, drawn)?;
            pieces.push(Ok(piece))?;
        }
        Ok(pieces)
    }

    /// The pieces that threads have drawn, in the order of their lines.
    pub fn gather(&self, all: AllDrawn<A>) -> Result<ReadPieces<A>, AllocError>
        requires { AreAllDrawn (option_copied self.now.known) self.now.columns.now self.now.kinds.now
            self.now.lines.now all.items }
        ensures read { IfOk result (λ pieces. ArePieces 1000 self.now.kinds.now pieces.items
            (map (λ line. line.now) self.now.lines.now)) }
        ensures known { IfOk result (λ pieces. AreKnown (option_copied self.now.known) self.now.columns.now
            pieces.items) }
    {
        let count = piece_count(self.lines.len());
        let places = placed(self.alloc, count, all)?;
        self.in_order(places)
    }

    /// The pieces that other threads and this one have drawn, in the order of their lines.
    pub fn gather_both(
        &self,
        theirs: AllDrawn<A>,
        mine: DrawnPieces<A>,
    ) -> Result<ReadPieces<A>, AllocError>
        requires theirs { AreAllDrawn (option_copied self.now.known) self.now.columns.now self.now.kinds.now
            self.now.lines.now theirs.items }
        requires mine { AreDrawn (option_copied self.now.known) self.now.columns.now self.now.kinds.now
            self.now.lines.now mine.items }
        ensures read { IfOk result (λ pieces. ArePieces 1000 self.now.kinds.now pieces.items
            (map (λ line. line.now) self.now.lines.now)) }
        ensures known { IfOk result (λ pieces. AreKnown (option_copied self.now.known) self.now.columns.now
            pieces.items) }
    {
        let mut all = theirs;
        all.push(Ok(mine))?;
        self.gather(all)
    }
}

impl<'r, 'd, G: Gate, A: Allocator + Copy + Send + Sync> PieceReader<'r, 'd, G, A> {
    /// Draws pieces by `threads` threads.
    pub fn draw_by_threads<R: Threads + Sync>(
        &self,
        rt: &R,
        threads: usize,
        draws: &Draws,
    ) -> Result<AllDrawn<A>, AllocError>
        ensures { IfOk result (λ all. AreAllDrawn (option_copied self.now.known) self.now.columns.now
            self.now.kinds.now self.now.lines.now all.items) }
    {
        let all = thread::map_indices(
            rt,
            self.alloc,
            threads,
            &|_thread: usize| -> Result<DrawnPieces<A>, AllocError>
                ensures { IfOk result (λ drawn. AreDrawn (option_copied self.entry.now.known) self.entry.now.columns.now
                    self.entry.now.kinds.now self.entry.now.lines.now drawn.items) }
            { self.draw_pieces(draws) },
        )?;
        Ok(all)
    }

    /// The pieces of all lines, read by `threads` threads.
    pub fn read_by_threads<R: Threads + Sync>(
        &self,
        rt: &R,
        threads: usize,
    ) -> Result<ReadPieces<A>, AllocError>
        ensures read { IfOk result (λ pieces. ArePieces 1000 self.now.kinds.now pieces.items
            (map (λ line. line.now) self.now.lines.now)) }
        ensures known { IfOk result (λ pieces. AreKnown (option_copied self.now.known) self.now.columns.now
            pieces.items) }
    {
        let draws = Draws::new();
        let all = self.draw_by_threads(rt, threads, &draws)?;
        self.gather(all)
    }
}
