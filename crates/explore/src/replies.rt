//! The replies of a history, session by session.

ghost use Rattle.std.specs.Prelude.{◌≡◌, ◌<◌, ◌≤◌, ◌++◌, ◌∷◌, [], List, ℕ, codes, get_or, length, take, IfOk, OnOk};
ghost use Rattle.std.specs.Fmt.{decimal};
ghost use Rattle.value.specs.Codes.{sqlstate};
ghost use Rattle.script.specs.Printing.{reply_text};
ghost use Rattle.history.specs.declared.event.Record.{Record as AnyRecord};
ghost use Rattle.explore.specs.Explored.{place_of, sessions};
ghost use Rattle.explore.specs.Replies.{AreReplies};
ghost use Rattle.explore.specs.Texts.{replies_of, told, told_refusal, word_line};

use history::event::Record;
use history::session_id::SessionId;
use itoa::Buffer;
use script::printing::reply_text;
use statement::reply::Reply;
use std::alloc::{Allocator, Global};
use std::marker::Model;
use value::refusal::{Place, Refusal};

// Appends a session's number and a space.
fn append_session<A: Allocator>(session: SessionId, text: &mut Vec<u8, A>) -> Result<(), Refusal>
    ensures ok { OnOk result (text.new.items ≡ text.old.items ++ decimal session ++ codes " ") }
{
    let mut buffer = Buffer::new();
    text.extend_from_slice(buffer.format(session.number()).as_bytes())?;
    text.push(b' ')?;
    Ok(())
}

// Appends a line to a session.
fn append_word<A: Allocator>(
    session: SessionId,
    word: &str,
    text: &mut Vec<u8, A>,
) -> Result<(), Refusal>
    ensures ok { OnOk result (text.new.items ≡ text.old.items ++ word_line session word.now) }
{
    append_session(session, text)?;
    text.extend_from_slice(word.as_bytes())?;
    text.push(b'\n')?;
    Ok(())
}

// Appends a refusal because of a structure, without its transactions.
fn append_cause<A: Allocator>(
    session: SessionId,
    refusal: Refusal,
    text: &mut Vec<u8, A>,
) -> Result<(), Refusal>
    ensures ok { OnOk result (text.new.items ≡ text.old.items ++
        word_line session (codes "ERROR " ++ sqlstate refusal.code ++ codes " cause")) }
{
    append_session(session, text)?;
    text.extend_from_slice(b"ERROR ")?;
    text.extend_from_slice(refusal.code.sqlstate().as_bytes())?;
    text.extend_from_slice(b" cause\n")?;
    Ok(())
}

// Appends a reply as it is printed.
fn append_printed<A: Allocator + Copy>(
    alloc: A,
    session: SessionId,
    reply: &Reply<A>,
    text: &mut Vec<u8, A>,
) -> Result<(), Refusal>
    ensures ok { OnOk result (text.new.items ≡ text.old.items ++ reply_text session reply.now) }
{
    let printed = reply_text(alloc, session, reply)?;
    text.extend_from_slice(printed.as_slice())?;
    Ok(())
}

// Appends a refusal.
fn append_refusal<A: Allocator + Copy>(
    alloc: A,
    session: SessionId,
    reply: &Reply<A>,
    refusal: Refusal,
    text: &mut Vec<u8, A>,
) -> Result<(), Refusal>
    ensures ok { OnOk result (text.new.items ≡ text.old.items ++
        told_refusal session reply.now refusal.code refusal.place) }
{
    match refusal.place {
        Place::Cause(_) => append_cause(session, refusal, text),
        Place::None | Place::Byte(_) | Place::Column(_) | Place::Table(_) | Place::Row => {
            append_printed(alloc, session, reply, text)
        }
    }
}

// Appends a reply, without the numbers that depend on the order alone.
fn append_told<A: Allocator + Copy>(
    alloc: A,
    session: SessionId,
    reply: &Reply<A>,
    text: &mut Vec<u8, A>,
) -> Result<(), Refusal>
    ensures ok { OnOk result (text.new.items ≡ text.old.items ++ told session reply.now) }
{
    match reply {
        Reply::Begun => append_word(session, "BEGIN", text),
        Reply::Committed => append_word(session, "COMMIT", text),
        Reply::RolledBack => append_word(session, "ROLLBACK", text),
        Reply::Pruned => append_word(session, "PRUNE", text),
        Reply::Imported => append_word(session, "IMPORT", text),
        Reply::Inserted => append_word(session, "INSERT 0 1", text),
        Reply::Wait => append_word(session, "WAIT", text),
        Reply::Safe(_) => append_word(session, "SAFE", text),
        Reply::Exported(_) => append_word(session, "EXPORT", text),
        Reply::Refused(refusal) => append_refusal(alloc, session, reply, *refusal, text),
        Reply::Updated(_) | Reply::Deleted(_) | Reply::Rows(_) => {
            append_printed(alloc, session, reply, text)
        }
    }
}

// What the replies to a session say.
#[derive(Drop)]
struct Replies<A: Allocator> {
    text: Vec<u8, A>,
}

impl<A: Allocator> Model for Replies<A> {
    ghost use Rattle.std.specs.Prelude.{List, ℕ};

    ghost Value = { List ℕ };

    ghost view = { λ r. r.text.items };
}

// So many bytes are taken at first for the replies to a session, which are mostly fewer.
const ROOM: usize = 128;

// Gives the session at a place its replies, and those before it: nothing, where they had none yet.
fn reach<A: Allocator + Copy>(
    alloc: A,
    place: usize,
    texts: &mut Vec<Replies<A>, A>,
) -> Result<(), Refusal>
    requires place { place < sessions }
    requires few { length texts.old.items ≤ sessions }
    ensures within { OnOk result (place < length texts.new.items) }
    ensures few { OnOk result (length texts.new.items ≤ sessions) }
    ensures same { OnOk result ((p : ℕ) → get_or texts.new.items p [] ≡ get_or texts.old.items p []) }
{
    while texts.len() <= place {
        texts.push(Replies {
            text: Vec::with_capacity(alloc, ROOM)?,
        })?;
    }
    Ok(())
}

// Appends the reply of an event to those of its session, which stand at a place.
fn append_at<A: Allocator + Copy>(
    alloc: A,
    entry: &Record<A>,
    place: usize,
    texts: &mut Vec<Replies<A>, A>,
) -> Result<(), Refusal>
    requires place { place ≡ place_of entry.now.session }
    requires within { place < length texts.old.items }
    ensures { OnOk result ((es : List (AnyRecord A)) → AreReplies es texts.old.items →
        AreReplies (es ++ entry.now ∷ []) texts.new.items) }
{
    let own = &mut texts[place];
    append_told(alloc, entry.session, &entry.reply, &mut own.text)
}

// Appends the reply of an event to those of its session.
fn append_own<A: Allocator + Copy>(
    alloc: A,
    entry: &Record<A>,
    texts: &mut Vec<Replies<A>, A>,
) -> Result<(), Refusal>
    requires { length texts.old.items ≤ sessions }
    ensures { OnOk result ((es : List (AnyRecord A)) → AreReplies es texts.old.items →
        AreReplies (es ++ entry.now ∷ []) texts.new.items) }
{
    let place = entry.session.number() as usize - 1;
    reach(alloc, place, texts)?;
    append_at(alloc, entry, place, texts)
}

// Appends the replies of events, from one on, to those of their sessions.
fn append_from<A: Allocator + Copy>(
    alloc: A,
    entries: &[Record<A>],
    from: usize,
    texts: &mut Vec<Replies<A>, A>,
) -> Result<(), Refusal>
    requires { AreReplies (take from entries.now) texts.old.items }
    ensures { OnOk result (AreReplies entries.now texts.new.items) }
{
    for place in from..entries.len() {
        append_own(alloc, &entries[place], texts)?;
    }
    Ok(())
}

// Equal replies.
fn copy_replies<A: Allocator>(alloc: A, replies: &Replies<A>) -> Result<Replies<A>, Refusal>
    ensures { IfOk result (λ copy. copy ≡ replies.now) }
{
    let text = Vec::from_slice(alloc, replies.text.as_slice())?;
    Ok(Replies { text })
}

// Equal replies to each session.
fn copy_all<A: Allocator + Copy>(
    alloc: A,
    texts: &[Replies<A>],
) -> Result<Vec<Replies<A>, A>, Refusal>
    ensures { IfOk result (λ copy. copy.items ≡ texts.now) }
{
    let mut copy = Vec::with_capacity(alloc, texts.len())?;
    for replies in texts {
        copy.push(copy_replies(alloc, replies)?)?;
    }
    Ok(copy)
}

/// What each session is told.
#[derive(Drop)]
pub(crate) struct Told<A: Allocator = Global> {
    texts: Vec<Replies<A>, A>,
}

impl<A: Allocator> Model for Told<A> {
    ghost use Rattle.std.specs.Prelude.{List, ℕ};

    ghost Value = { List (List ℕ) };

    ghost view = { λ t. t.texts.items };
}

impl<A: Allocator> Told<A> {
    // The replies to each session.
    fn texts(&self) -> &[Replies<A>]
        ensures { result.now ≡ self.now }
    {
        self.texts.as_slice()
    }
}

impl<A: Allocator + Copy> Told<A> {
    /// Nothing yet.
    pub(crate) fn nothing(alloc: A) -> Told<A>
        ensures { result ≡ [] }
    {
        Told {
            texts: Vec::new(alloc),
        }
    }

    /// The replies of all events, where those up to one are told.
    pub(crate) fn tell_from(
        &mut self,
        alloc: A,
        entries: &[Record<A>],
        from: usize,
    ) -> Result<(), Refusal>
        requires { AreReplies (take from entries.now) self.old }
        ensures { OnOk result (AreReplies entries.now self.new) }
    {
        append_from(alloc, entries, from, &mut self.texts)
    }

    /// The replies of events.
    pub(crate) fn of(alloc: A, entries: &[Record<A>]) -> Result<Told<A>, Refusal>
        ensures { IfOk result (AreReplies entries.now) }
    {
        let mut told = Told::nothing(alloc);
        told.tell_from(alloc, entries, 0)?;
        Ok(told)
    }

    /// The same replies.
    pub(crate) fn copy(&self, alloc: A) -> Result<Told<A>, Refusal>
        ensures { IfOk result (λ copy. copy ≡ self.now) }
    {
        let texts = copy_all(alloc, self.texts())?;
        Ok(Told { texts })
    }
}

// Appends the replies to a session.
fn append_all<A: Allocator>(replies: &Replies<A>, text: &mut Vec<u8, A>) -> Result<(), Refusal>
    ensures { OnOk result (text.new.items ≡ text.old.items ++ replies.now) }
{
    if !replies.text.is_empty() {
        text.extend_from_slice(replies.text.as_slice())?;
    }
    Ok(())
}

/// Appends the replies of events to each session, session by session.
pub(crate) fn append_replies<A: Allocator>(
    entries: &[Record<A>],
    told: &Told<A>,
    text: &mut Vec<u8, A>,
) -> Result<(), Refusal>
    requires { AreReplies entries.now told.now }
    ensures ok { OnOk result (text.new.items ≡ text.old.items ++ replies_of 64 entries.now) }
{
    // The contract alone speaks of the events.
    let _count = entries.len();
    for replies in told.texts() {
        append_all(replies, text)?;
    }
    Ok(())
}
