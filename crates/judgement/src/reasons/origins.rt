//! Where transactions and statements come from in the application's source, as the transcript's comments tell.

ghost use Rattle.std.specs.Prelude.{◌≡◌, IfErr};
ghost use Rattle.value.specs.Refusals.{out_of_memory};

use crate::reasons::account::Account;
use crate::reasons::phrases::Telling;
use script::words::cut;
use std::alloc::Allocator;
use transcript::places::Place;
use value::refusal::Refusal;

impl<'r, A: Allocator> Account<'r, A> {
    /// What the comment before the command in a line tells.
    pub(crate) fn origin(&self, line: u64) -> Option<&'r [u8]> {
        let places = self.places;
        let found = places.binary_search_by_key(&line, |place: &Place<A>| -> u64 { place.line });
        match found {
            Ok(at) => match places.get(at) {
                Some(place) => Some(place.words.as_slice()),
                None => None,
            },
            Err(_) => None,
        }
    }
}

// How many bytes a character takes with which a text begins, where that may break a line: a control character, or a
// separator of lines or paragraphs. Else 0.
fn breaking(text: &[u8]) -> usize {
    match text {
        [first, ..] if *first < 0x20 || *first == 0x7F => 1,
        [0xC2, second, ..] if *second < 0xA0 => 2,
        [0xE2, 0x80, third, ..] if *third == 0xA8 || *third == 0xA9 => 3,
        _ => 0,
    }
}

impl<A: Allocator + Copy> Telling<'_, A> {
    // Appends words of a comment, with a question mark for each byte that may break a line.
    fn append_shown(&mut self, words: &[u8]) -> Result<(), Refusal>
        ensures memory { IfErr result (λ e. e ≡ out_of_memory) }
    {
        let mut left = words;
        let mut hidden = 0usize;
        while let [byte, rest @ ..] = left {
            hidden = hidden.max(breaking(left));
            if hidden > 0 {
                self.text.push(b'?')?;
            } else {
                self.text.push(*byte)?;
            }
            hidden = hidden.saturating_sub(1);
            left = rest;
        }
        Ok(())
    }

    /// Appends the number of the transaction at a place, and where it comes from, where that is told: `3 (checkout,
    /// shop/views.py:41)`.
    pub(crate) fn append_actor(&mut self, place: usize) -> Result<(), Refusal>
        ensures memory { IfErr result (λ e. e ≡ out_of_memory) }
    {
        let account = self.account;
        self.append_party(place)?;
        let Some(transaction) = account.transactions.get(place) else {
            return Ok(());
        };
        let Some(words) = account.origin(transaction.begin) else {
            return Ok(());
        };
        let Some((name, file)) = cut(b' ', words) else {
            return Ok(());
        };
        self.append_word(" (")?;
        self.append_shown(name)?;
        self.append_word(", ")?;
        self.append_shown(file)?;
        self.append_word(")")
    }

    /// Appends where the command in a line comes from, where that is told, else the line: `(shop/views.py:43)`, `(line 12)`.
    pub(crate) fn append_command(&mut self, line: u64) -> Result<(), Refusal>
        ensures memory { IfErr result (λ e. e ≡ out_of_memory) }
    {
        let account = self.account;
        let Some(words) = account.origin(line) else {
            return self.append_line(line);
        };
        let Some((_, file)) = cut(b' ', words) else {
            return self.append_line(line);
        };
        self.append_word(" (")?;
        self.append_shown(file)?;
        self.append_word(")")
    }
}
