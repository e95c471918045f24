//! The fields of a line, and whether the line has the form of a row.

ghost use Rattle.std.specs.Prelude.{◌≡◌, ◌+◌, ◌<◌, ◌≤◌, [], ◌∷◌, ◌==◌, ◌&&◌, take, drop, length, not, is_some, Option, MatchOption, IfSome};
ghost use Rattle.std.specs.List.{list_all, list_any};
ghost use Rattle.std.specs.Option.{option_map, option_copied};
ghost use Rattle.copytext.specs.Writing.{tab, backslash};
ghost use Rattle.copytext.specs.Reading.{cut, cut_more, content, content_after, is_break, is_field};

use crate::escape::escape;

// Whether a byte parts two fields.
fn parts_fields(is_escaped: bool, byte: u8) -> bool
    ensures { result ≡ not is_escaped && (byte == tab) }
{
    !is_escaped && byte == b'\t'
}

// Whether a byte escapes the next.
fn escapes_next(is_escaped: bool, byte: u8) -> bool
    ensures { result ≡ not is_escaped && (byte == backslash) }
{
    !is_escaped && byte == b'\\'
}

// How many bytes stand before the first tab that no backslash escapes.
fn field_len(line: &[u8]) -> usize
    ensures within { result ≤ length line.now }
    ensures last { result ≡ length line.now → cut line.now ≡ line.now ∷ [] }
    ensures parted { result < length line.now → cut line.now ≡ take result line.now ∷ cut (drop (result + 1) line.now) }
{
    let mut is_escaped = false;
    for (i, byte) in line.iter().enumerate() {
        if parts_fields(is_escaped, *byte) {
            return i;
        }
        is_escaped = escapes_next(is_escaped, *byte);
    }
    line.len()
}

// The byte that stands first in a field's content, and the raw bytes after it.
pub fn next_byte(first: u8, more: &[u8]) -> Option<(u8, &[u8])>
    ensures { MatchOption result (content (first ∷ more.now) ≡ None)
        (λ r. (content (first ∷ more.now) ≡ option_map (λ bytes. r.0 ∷ bytes) (content r.1.now)) ×
        (length r.1.now ≤ length more.now)) }
{
    if first != b'\\' {
        return Some((first, more));
    }
    match escape(more) {
        Some((byte, taken)) => {
            let (_, after) = more.split_at(taken);
            Some((byte as u8, after))
        }
        None => None,
    }
}

// Whether the escapes of a field are right, one byte after another.
fn has_right_escapes(raw: &[u8]) -> bool
    ensures { result ≡ is_some (content raw.now) }
{
    let mut rest = raw;
    while let [first, more @ ..] = rest {
        match next_byte(*first, more) {
            Some((_, after)) => rest = after,
            None => return false,
        }
    }
    true
}

// Whether the escapes of a field are right. Most fields have none.
fn has_content(raw: &[u8]) -> bool
    ensures { result ≡ is_some (content raw.now) }
{
    if !raw.contains(&b'\\') {
        return true;
    }
    has_right_escapes(raw)
}

// Whether a byte ends a line.
fn is_break(byte: u8) -> bool
    ensures { result ≡ is_break byte }
{
    byte == b'\n' || byte == b'\r'
}

// Whether some byte ends a line.
fn has_break(raw: &[u8]) -> bool
    ensures { result ≡ list_any is_break raw.now }
{
    raw.iter().any(|byte| is_break(*byte))
}

// Whether raw bytes can be a field.
fn is_field(raw: &[u8]) -> bool
    ensures { result ≡ is_field raw.now }
{
    !has_break(raw) && has_content(raw)
}

// The raw bytes of the first field, and what follows its tab.
pub fn first_field(text: &[u8]) -> (&[u8], Option<&[u8]>)
    ensures fields { cut text.now ≡ result.0.now ∷ cut_more (option_copied result.1) }
    ensures shorter { IfSome result.1 (λ more. length more.now < length text.now) }
{
    let (raw, rest) = text.split_at(field_len(text));
    match rest {
        [] => (raw, None),
        [_, more @ ..] => (raw, Some(more)),
    }
}

// Whether a line is cut into `count` fields, each of right form.
pub fn has_form(line: &[u8], count: usize) -> bool
    ensures { result ≡ list_all is_field (cut line.now) && (length (cut line.now) == count) }
{
    let mut text = line;
    let mut found = 0;
    loop {
        let (raw, more) = first_field(text);
        if found == count || !is_field(raw) {
            return false;
        }
        found += 1;
        match more {
            None => return found == count,
            Some(more) => text = more,
        }
    }
}
