//! Where a line stops to begin some line in form.
ghost use Rattle.std.specs.Prelude.{◌↔◌, IsTrue};
ghost use Rattle.schedule_text.specs.Places.{IsPlace};
ghost use Rattle.schedule_text.specs.Found.{HasAny, BeginsSome, BeginsRest, BeginsLists, BeginsOps, BeginsWord, StopsInKeys};

use super::form::Form;
use super::found::form_named;
use super::lists::{are_keys, take_keys};
use super::word::{cut_word, take_number};
use io_core::MAX_LINE;

/// How many lists of keys a line has that has lists.
const LISTS: usize = 2;

// Whether a text is a space and then the beginning of a list of keys that no list is: nothing, or a list and a comma.
fn stops_in_keys(text: &[u8]) -> bool
    ensures { IsTrue result ↔ StopsInKeys text.now }
{
    let Some(word) = text.strip_prefix(b" ") else {
        return false;
    };
    if word.is_empty() {
        return true;
    }
    match word.strip_suffix(b",") {
        Some(keys) => {
            if keys == b"-".as_slice() {
                return false;
            }
            are_keys(keys)
        }
        None => false,
    }
}

// Whether a text begins the ops at the end of a line, with their space.
fn begins_ops(text: &[u8]) -> bool
    ensures { IsTrue result ↔ BeginsOps text.now }
{
    match text.strip_prefix(b" ") {
        Some(ops) => ops.iter().all(|byte| matches!(*byte, b' '..=b'~')),
        None => text.is_empty(),
    }
}

// Whether a text begins so many lists of keys, and then ops.
fn begins_lists(count: usize, text: &[u8]) -> bool
    ensures { IsTrue result ↔ BeginsLists count text.now }
{
    if text.is_empty() {
        return true;
    }
    if count == 0 {
        return begins_ops(text);
    }
    match take_keys(text) {
        Some((_, rest)) => begins_lists(count - 1, rest),
        None => stops_in_keys(text),
    }
}

// Whether a text begins so many numbers, and then lists, of a form with lists.
fn begins_rest(count: usize, lists: bool, text: &[u8]) -> bool
    ensures { IsTrue result ↔ BeginsRest count lists text.now }
{
    if text.is_empty() {
        return true;
    }
    if count == 0 {
        return lists && begins_lists(LISTS, text);
    }
    match take_number(text) {
        Some((_, rest)) => begins_rest(count - 1, lists, rest),
        None => text == b" ".as_slice(),
    }
}

// Whether a text begins the first word of one of these forms.
fn begins_word(forms: &[Form], text: &[u8]) -> bool
    ensures { IsTrue result ↔ BeginsWord forms.now text.now }
{
    for form in forms {
        if form.row().word.starts_with(text) {
            return true;
        }
    }
    false
}

// Whether a text begins some line in one of these forms.
fn begins_some(forms: &[Form], text: &[u8]) -> bool
    ensures { IsTrue result ↔ BeginsSome forms.now text.now }
{
    let (word, rest) = cut_word(text);
    if rest.is_empty() {
        return begins_word(forms, word);
    }
    match form_named(forms, word) {
        Some(form) => {
            let row = form.row();
            begins_rest(row.names.len(), row.lists, rest)
        }
        None => false,
    }
}

/// One more than the length of the longest prefix of a line that begins some line in one of these forms, and at most 513.
pub(crate) fn place(forms: &[Form], line: &[u8]) -> u64
    requires { HasAny forms.now }
    ensures { IsPlace (BeginsSome forms.now) line.now result }
{
    let front = &line[..line.len().min(MAX_LINE)];
    let mut at = 0;
    while at < front.len() && begins_some(forms, &front[..at + 1]) {
        at += 1;
    }
    at as u64 + 1
}
