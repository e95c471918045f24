//! The moves of a seat, each with what it shows.

ghost use Rattle.std.specs.Prelude.{◌≡◌, ◌+◌, ◌<◌, ◌^◌, [], true, false, length};
ghost use mathlib.Core.Option.{some};
ghost use Rattle.history.specs.Answer.{Allowed, answer};
ghost use Rattle.pass.specs.Rules.{bare, part, note, one_more, next_one, united, heard, Looked, Compared, Checked, Noted, Added};

use crate::knowledge::Knowledge;
use crate::word::{
    Add, Check, Compare, Expect, Hear, Look, Naming, Next, Note, Part, Unite, Words,
};
use atomic_table::Seat;
use history::event::Record;
use std::alloc::Allocator;

/// An owner's share of the word's table.
pub(crate) type Place<A> = Seat<Record<A>, Knowledge<A>>;

/// Splits the right to act off a seat, with what it has seen.
pub(crate) fn give<A: Allocator>(words: &Words<A>, seat: &mut Place<A>) -> Place<A>
    requires table { seat.old.table_id ≡ words.now.shared.table_id }
    requires one { words.now.shared.table_id.words ≡ 1 }
    ensures seat { (seat.new.table_id ≡ seat.old.table_id) × (seat.new.me ≡ (bare seat.old.me.0, seat.old.me.1)) }
    ensures given { (result.table_id ≡ seat.old.table_id) × (result.me ≡ (part seat.old.me.0, [])) }
{
    words.shared.split_seat::<Part>(seat)
}

/// Makes the seat of the next session, of the lock's.
pub(crate) fn next<A: Allocator>(words: &Words<A>, seat: &mut Place<A>) -> Place<A>
    requires table { seat.old.table_id ≡ words.now.shared.table_id }
    requires one { words.now.shared.table_id.words ≡ 1 }
    requires whole { seat.old.me.0.keeps ≡ true }
    ensures seat { (seat.new.table_id ≡ seat.old.table_id) × (seat.new.me ≡ (one_more seat.old.me.0, seat.old.me.1)) }
    ensures given { (result.table_id ≡ seat.old.table_id) × (result.me ≡ (next_one seat.old.me.0, [])) }
{
    words.shared.split_seat::<Next>(seat)
}

/// Splits off a note of what a seat has seen, with no right to act.
pub(crate) fn tell<A: Allocator>(words: &Words<A>, seat: &mut Place<A>) -> Place<A>
    requires table { seat.old.table_id ≡ words.now.shared.table_id }
    requires one { words.now.shared.table_id.words ≡ 1 }
    ensures seat { (seat.new.table_id ≡ seat.old.table_id) × (seat.new.me ≡ seat.old.me) }
    ensures given { (result.table_id ≡ seat.old.table_id) × (result.me ≡ (note seat.old.me.0, [])) }
{
    words.shared.split_seat::<Note>(seat)
}

/// The right to act comes in: the lock's seat is given what the other has seen, and another seat has then seen it.
pub(crate) fn unite<A: Allocator>(words: &Words<A>, seat: &mut Place<A>, other: Place<A>)
    requires table { (seat.old.table_id ≡ words.now.shared.table_id) × (other.table_id ≡ words.now.shared.table_id) }
    requires one { words.now.shared.table_id.words ≡ 1 }
    requires free { other.me.1 ≡ [] }
    ensures { (seat.new.table_id ≡ seat.old.table_id) ×
        (seat.new.me ≡ (united seat.old.me.0 other.me.0, seat.old.me.1)) }
{
    words.shared.join_seat::<Unite>(seat, other);
}

/// Gives a seat what another has seen.
pub(crate) fn hear<A: Allocator>(words: &Words<A>, seat: &mut Place<A>, other: Place<A>)
    requires table { (seat.old.table_id ≡ words.now.shared.table_id) × (other.table_id ≡ words.now.shared.table_id) }
    requires one { words.now.shared.table_id.words ≡ 1 }
    requires free { other.me.1 ≡ [] }
    ensures { (seat.new.table_id ≡ seat.old.table_id) ×
        (seat.new.me ≡ (heard seat.old.me.0 other.me.0, seat.old.me.1)) }
{
    words.shared.join_seat::<Hear>(seat, other);
}

/// It sees the history as it is.
pub(crate) fn look<A: Allocator, J: Naming<A>>(words: &Words<A>, seat: &mut Place<A>) -> u64
    requires table { seat.old.table_id ≡ words.now.shared.table_id }
    requires one { words.now.shared.table_id.words ≡ 1 }
    requires opening { words.now.shared.key ≡ J.opening }
    requires pass { seat.old.me.0.keeps ≡ false }
    ensures seat { (seat.new.table_id ≡ seat.old.table_id) × (seat.new.me.1 ≡ seat.old.me.1) }
    ensures looked { Looked J.opening seat.old.me.0 result seat.new.me.0 }
{
    words.shared.load::<Look<J>>(seat, 0)
}

/// It sees the longer of what it has seen and was given.
pub(crate) fn compare<A: Allocator>(words: &Words<A>, seat: &mut Place<A>)
    requires table { seat.old.table_id ≡ words.now.shared.table_id }
    requires one { words.now.shared.table_id.words ≡ 1 }
    requires pass { seat.old.me.0.keeps ≡ false }
    ensures seat { (seat.new.table_id ≡ seat.old.table_id) × (seat.new.me.1 ≡ seat.old.me.1) }
    ensures compared { Compared seat.old.me.0 seat.new.me.0 }
{
    words.shared.load::<Compare>(seat, 0);
}

/// The lock's seat checks what it was given.
pub(crate) fn check<A: Allocator>(words: &Words<A>, seat: &mut Place<A>)
    requires table { seat.old.table_id ≡ words.now.shared.table_id }
    requires one { words.now.shared.table_id.words ≡ 1 }
    requires whole { (seat.old.me.0.keeps ≡ true) × (seat.old.me.0.holds ≡ true) }
    ensures seat { (seat.new.table_id ≡ seat.old.table_id) × (seat.new.me.1 ≡ seat.old.me.1) }
    ensures checked { Checked seat.old.me.0 seat.new.me.0 }
{
    words.shared.load::<Check>(seat, 0);
}

/// The lock's seat is given the event that comes next. The word stays as it is.
pub(crate) fn expect<A: Allocator>(words: &Words<A>, seat: &mut Place<A>, entry: &Record<A>)
    requires table { seat.old.table_id ≡ words.now.shared.table_id }
    requires one { words.now.shared.table_id.words ≡ 1 }
    requires whole { (seat.old.me.0.keeps ≡ true) × (seat.old.me.0.holds ≡ true) }
    ensures seat { (seat.new.table_id ≡ seat.old.table_id) × (seat.new.me.1 ≡ seat.old.me.1) }
    ensures noted { Noted (some entry.now) seat.old.me.0 seat.new.me.0 }
{
    words
        .shared
        .compare_exchange_with::<Expect>(seat, 0, 0, 0, entry);
}

/// The lock's seat adds that event.
pub(crate) fn add<A: Allocator>(words: &Words<A>, seat: &mut Place<A>)
    requires table { seat.old.table_id ≡ words.now.shared.table_id }
    requires one { words.now.shared.table_id.words ≡ 1 }
    requires whole { (seat.old.me.0.keeps ≡ true) × (seat.old.me.0.holds ≡ true) }
    requires session { seat.old.me.0.next.session ≡ seat.old.me.0.session }
    requires allowed { Allowed words.now.shared.key.catalog seat.old.me.0.next.action }
    requires answer { seat.old.me.0.next.reply ≡ answer words.now.shared.key seat.old.me.0.seen seat.old.me.0.session
        seat.old.me.0.next.action }
    requires room { length seat.old.me.0.seen + 1 < 2 ^ 64 }
    ensures seat { (seat.new.table_id ≡ seat.old.table_id) × (seat.new.me.1 ≡ seat.old.me.1) }
    ensures added { Added seat.old.me.0 seat.new.me.0 }
{
    words.shared.fetch_add::<Add>(seat, 0, 1);
}
