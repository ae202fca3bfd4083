//! The map behind an application. While a payload is applied a key may have no number: room was made for it, or it was
//! deleted.
ghost use Rattle.std.specs.Prelude.{◌≡◌, ◌⊎◌, ◌++◌, ℕ, List, All, IfOk, OnOk, OnErr};
ghost use Rattle.std.specs.Option.{IsSome};
ghost use Rattle.tx_model.specs.Applications.{after_op, after_ops, application_text, pair_text};
ghost use Rattle.kv_app.specs.Numbers.{application_of, entry_at, entry_text, HasRoom, number_after, IsEmptyAt, HaveNumbers, Gives, Deletes, SomeFrom};

use crate::touched::key_of;
use itoa::Buffer;
use std::alloc::{AllocError, Global};
use std::collections::BTreeMap;
use tx_model::Op;

pub(crate) type Numbers = BTreeMap<Vec<u8>, Option<i64>>;

// Gives a key an entry. It has no number where it is new.
fn make_entry(alloc: Global, numbers: &mut Numbers, key: &[u8]) -> Result<(), AllocError>
    ensures same { application_of (λ k. k.items) numbers.new.entries ≡ application_of (λ k. k.items) numbers.old.entries }
    ensures made { OnOk result (IsSome (entry_at (λ k. k.items) numbers.new.entries key.now)) }
    ensures kept { (q : List ℕ) → IsSome (entry_at (λ k. k.items) numbers.old.entries q) → IsSome (entry_at (λ k. k.items) numbers.new.entries q) }
    ensures empty { (q : List ℕ) → IsEmptyAt (λ k. k.items) numbers.new.entries q → IsEmptyAt (λ k. k.items) numbers.old.entries q ⊎ (q ≡ key.now) }
{
    if numbers.contains_key(key) {
        return Ok(());
    }
    let key = key.to_vec(alloc)?;
    match numbers.insert(key, None) {
        Ok(_) => Ok(()),
        Err(_) => Err(AllocError),
    }
}

// Gives each key that is to have a number an entry.
fn make_room(alloc: Global, numbers: &mut Numbers, ops: &[Op]) -> Result<(), AllocError>
    ensures same { application_of (λ k. k.items) numbers.new.entries ≡ application_of (λ k. k.items) numbers.old.entries }
    ensures made { OnOk result (All (HasRoom (λ k. k.items) numbers.new.entries) ops.now) }
    ensures empty { (q : List ℕ) → IsEmptyAt (λ k. k.items) numbers.new.entries q → IsEmptyAt (λ k. k.items) numbers.old.entries q ⊎ SomeFrom 0 (Gives q) ops.now }
{
    for op in ops {
        match op {
            Op::Set(key, _) | Op::Add(key, _) => make_entry(alloc, numbers, key.bytes())?,
            Op::Del(_) => {}
        }
    }
    Ok(())
}

/// The number that an operation leaves at its key.
pub(crate) fn number_after(number: Option<i64>, op: &Op) -> Option<i64>
    ensures { result ≡ number_after number op.now }
{
    match op {
        Op::Set(_, amount) => Some(*amount),
        Op::Add(_, amount) => Some(number.unwrap_or(0).saturating_add(*amount)),
        Op::Del(_) => None,
    }
}

// Does one operation that has room.
fn change(numbers: &mut Numbers, op: &Op)
    requires { HasRoom (λ k. k.items) numbers.old.entries op.now }
    ensures changed { application_of (λ k. k.items) numbers.new.entries ≡ after_op (application_of (λ k. k.items) numbers.old.entries) op.now }
    ensures kept { (q : List ℕ) → IsSome (entry_at (λ k. k.items) numbers.old.entries q) → IsSome (entry_at (λ k. k.items) numbers.new.entries q) }
    ensures empty { (q : List ℕ) → IsEmptyAt (λ k. k.items) numbers.new.entries q → Deletes q op.now ⊎ (IsEmptyAt (λ k. k.items) numbers.old.entries q × ¬ Gives q op.now) }
{
    if let Some(number) = numbers.get_mut(key_of(op).bytes()) {
        *number = number_after(*number, op);
    }
}

// Takes away a key that has no number.
fn drop_empty(numbers: &mut Numbers, key: &[u8])
    ensures same { application_of (λ k. k.items) numbers.new.entries ≡ application_of (λ k. k.items) numbers.old.entries }
    ensures empty { (q : List ℕ) → IsEmptyAt (λ k. k.items) numbers.new.entries q → IsEmptyAt (λ k. k.items) numbers.old.entries q × ¬ (q ≡ key.now) }
{
    if let Some(None) = numbers.get(key) {
        numbers.remove(key);
    }
}

// Takes away the keys that room was made for in vain.
fn drop_rooms(numbers: &mut Numbers, ops: &[Op])
    ensures same { application_of (λ k. k.items) numbers.new.entries ≡ application_of (λ k. k.items) numbers.old.entries }
    ensures empty { (q : List ℕ) → IsEmptyAt (λ k. k.items) numbers.new.entries q → IsEmptyAt (λ k. k.items) numbers.old.entries q × ¬ SomeFrom 0 (Gives q) ops.now }
{
    for op in ops {
        match op {
            Op::Set(key, _) | Op::Add(key, _) => drop_empty(numbers, key.bytes()),
            Op::Del(_) => {}
        }
    }
}

// Takes away the keys that were deleted and not given a number since.
fn drop_deleted(numbers: &mut Numbers, ops: &[Op])
    ensures same { application_of (λ k. k.items) numbers.new.entries ≡ application_of (λ k. k.items) numbers.old.entries }
    ensures empty { (q : List ℕ) → IsEmptyAt (λ k. k.items) numbers.new.entries q → IsEmptyAt (λ k. k.items) numbers.old.entries q × ¬ SomeFrom 0 (Deletes q) ops.now }
{
    for op in ops {
        if let Op::Del(key) = op {
            drop_empty(numbers, key.bytes());
        }
    }
}

// Does the operations in order. Each has room.
fn change_each(numbers: &mut Numbers, ops: &[Op])
    requires { All (HasRoom (λ k. k.items) numbers.old.entries) ops.now }
    ensures changed { application_of (λ k. k.items) numbers.new.entries ≡ after_ops (application_of (λ k. k.items) numbers.old.entries) ops.now }
    ensures empty { (q : List ℕ) → IsEmptyAt (λ k. k.items) numbers.new.entries q → SomeFrom 0 (Deletes q) ops.now ⊎ (IsEmptyAt (λ k. k.items) numbers.old.entries q × ¬ SomeFrom 0 (Gives q) ops.now) }
{
    for op in ops {
        change(numbers, op);
    }
}

/// Does the operations in order, or none of them where memory runs out. A deleted key is gone.
pub(crate) fn change_all(alloc: Global, numbers: &mut Numbers, ops: &[Op]) -> Result<(), AllocError>
    requires { HaveNumbers (λ k. k.items) numbers.old.entries }
    ensures ok { OnOk result (application_of (λ k. k.items) numbers.new.entries ≡ after_ops (application_of (λ k. k.items) numbers.old.entries) ops.now) }
    ensures err { OnErr result (application_of (λ k. k.items) numbers.new.entries ≡ application_of (λ k. k.items) numbers.old.entries) }
    ensures filled { HaveNumbers (λ k. k.items) numbers.new.entries }
{
    match make_room(alloc, numbers, ops) {
        Ok(()) => {
            change_each(numbers, ops);
            drop_deleted(numbers, ops);
            Ok(())
        }
        Err(fault) => {
            drop_rooms(numbers, ops);
            Err(fault)
        }
    }
}

// Puts a space and key=value behind the text.
fn put_pair(text: &mut Vec<u8>, key: &[u8], number: i64) -> Result<(), AllocError>
    ensures { OnOk result (text.new.items ≡ text.old.items ++ pair_text (key.now, number)) }
{
    text.push(b' ')?;
    text.extend_from_slice(key)?;
    text.push(b'=')?;
    let mut digits = Buffer::new();
    text.extend_from_slice(digits.format(number).as_bytes())?;
    Ok(())
}

// Puts the same behind the text where the key has a number.
fn put_entry(text: &mut Vec<u8>, key: &[u8], number: Option<i64>) -> Result<(), AllocError>
    ensures { OnOk result (text.new.items ≡ text.old.items ++ entry_text key.now number) }
{
    match number {
        Some(number) => put_pair(text, key, number),
        None => Ok(()),
    }
}

/// A space and key=value for each key that has a number.
pub(crate) fn text_of(alloc: Global, numbers: &Numbers) -> Result<Vec<u8>, AllocError>
    ensures { IfOk result (λ text. text.items ≡ application_text (application_of (λ k. k.items) numbers.now.entries)) }
{
    let mut text = Vec::new(alloc);
    for (key, number) in numbers {
        put_entry(&mut text, key, *number)?;
    }
    Ok(text)
}
