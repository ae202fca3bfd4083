//! The reading of a line before it takes memory.
ghost use Rattle.std.specs.Prelude.{◌≡◌, ◌≤◌, ◌++◌, ℕ, List, length, take, flat_map, IfSome, IfNone};
ghost use Rattle.schedule_text.specs.Words.{EndsWord};
ghost use Rattle.schedule_text.specs.Fronts.{AreNoNumbersThen};
ghost use Rattle.schedule_text.specs.Forms.{form_named};
ghost use Rattle.schedule_text.specs.Lines.{Parts as PartsValue, Spells, AreNumbers, number_text, AreInRanges, IsFirstOut};
ghost use Rattle.schedule_text.specs.Found.{IsFound, IsTail, IsNoTail, AreWords};

use super::form::{Form, MAX_NUMBERS, Name};
use super::lists::{are_ops, take_keys};
use super::word::{cut_word, take_number};
use io_core::MAX_LINE;
use net_model::Cluster;

/// The words of an append behind its numbers: two lists of keys, and ops.
#[derive(Clone, Copy)]
pub(crate) struct Words<'a> {
    pub writes: &'a [u8],
    pub reads: &'a [u8],
    pub ops: &'a [u8],
}

/// What follows the numbers of a line.
#[derive(Clone, Copy)]
pub(crate) enum Tail<'a> {
    End,
    Lists(Words<'a>),
}

/// The numbers of a line, as many as its form has names, and then zeros.
#[derive(Clone, Copy)]
pub(crate) struct Numbers {
    pub values: [u64; MAX_NUMBERS],
}

/// What a line in form says.
#[derive(Clone, Copy)]
pub(crate) struct Found<'a> {
    pub form: Form,
    pub numbers: Numbers,
    pub tail: Tail<'a>,
}

/// The form whose first word this is.
pub(crate) fn form_named(forms: &[Form], word: &[u8]) -> Option<Form>
    ensures { result ≡ form_named forms.now word.now }
{
    for form in forms {
        if form.row().word == word {
            return Some(*form);
        }
    }
    None
}

// So many numbers, each behind a space, and what follows them.
fn read_numbers(count: usize, text: &[u8]) -> Option<(Numbers, &[u8])>
    requires few { count ≤ MAX_NUMBERS }
    requires word_ends { EndsWord text.now }
    ensures some { IfSome result (λ found.
        text.now ≡ flat_map number_text (take count found.0.values) ++ found.1.now) }
    ensures numbers { IfSome result (λ found.
        AreNumbers (take count found.0.values) × (length found.0.values ≡ MAX_NUMBERS)) }
    ensures ends { IfSome result (λ found. EndsWord found.1.now) }
    ensures none { IfNone result (AreNoNumbersThen count text.now) }
{
    let mut values = [0; MAX_NUMBERS];
    let mut rest = text;
    for i in 0..count {
        let Some((number, behind)) = take_number(rest) else {
            return None;
        };
        values[i] = number;
        rest = behind;
    }
    Some((Numbers { values }, rest))
}

// The lists and the ops that a text is.
fn read_words(text: &[u8]) -> Option<Words<'_>>
    ensures some { IfSome result (λ w. AreWords text.now w.writes.now w.reads.now w.ops.now) }
    ensures none { IfNone result
        ((writes reads ops : List ℕ) → ¬ AreWords text.now writes reads ops) }
{
    let Some((writes, rest)) = take_keys(text) else {
        return None;
    };
    let Some((reads, rest)) = take_keys(rest) else {
        return None;
    };
    let Some(ops) = rest.strip_prefix(b" ") else {
        return None;
    };
    if !are_ops(ops) {
        return None;
    }
    Some(Words { writes, reads, ops })
}

// What a text behind the numbers is, of a form with lists or without.
fn read_tail(lists: bool, text: &[u8]) -> Option<Tail<'_>>
    ensures some { IfSome result (λ tail. IsTail lists text.now tail) }
    ensures none { IfNone result (IsNoTail lists text.now) }
{
    if !lists {
        return if text.is_empty() {
            Some(Tail::End)
        } else {
            None
        };
    }
    match read_words(text) {
        Some(words) => Some(Tail::Lists(words)),
        None => None,
    }
}

/// What a line in one of these forms says.
pub(crate) fn read_found<'a>(forms: &[Form], line: &'a [u8]) -> Option<Found<'a>>
    ensures some { IfSome result (λ found. IsFound forms.now line.now found) }
    ensures none { IfNone result ((p : PartsValue) → ¬ Spells forms.now line.now p) }
{
    if line.len() > MAX_LINE {
        return None;
    }
    let (word, rest) = cut_word(line);
    let Some(form) = form_named(forms, word) else {
        return None;
    };
    let row = form.row();
    let Some((numbers, behind)) = read_numbers(row.names.len(), rest) else {
        return None;
    };
    let Some(tail) = read_tail(row.lists, behind) else {
        return None;
    };
    Some(Found {
        form,
        numbers,
        tail,
    })
}

/// The name of the first number that is out of its range.
pub(crate) fn first_out(cluster: &Cluster, names: &[Name], numbers: &[u64]) -> Option<Name>
    requires { length numbers.now ≡ length names.now }
    ensures some { IfSome result (λ name. IsFirstOut cluster.now names.now numbers.now name) }
    ensures none { IfNone result (AreInRanges cluster.now names.now numbers.now) }
{
    for (i, name) in names.iter().enumerate() {
        let number = numbers[i];
        if number < name.least() {
            return Some(*name);
        }
        if number > name.most(cluster) {
            return Some(*name);
        }
    }
    None
}
