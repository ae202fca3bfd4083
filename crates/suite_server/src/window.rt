ghost use Rattle.std.specs.Prelude.{◌≡◌, ◌+◌, ◌≤◌, ◌<◌, length, IfOk};
ghost use Rattle.tx_model.specs.Records.{IsRecord};

use feed_service::Window;
use std::alloc::{AllocError, Global};
use std::test::Fail;
use tx_model::{Batch, Record, Tx};

// A record of this id, made by the client of the same number.
fn entry(alloc: Global, id: u8) -> Result<Record, Fail>
    requires { 1 ≤ id }
    ensures id { IfOk result (λ entry. entry.id ≡ id) }
    ensures valid { IfOk result IsRecord }
{
    let id = u64::from(id);
    let tx = Tx::new(
        alloc,
        id,
        1,
        0,
        Vec::new(alloc),
        Vec::new(alloc),
        Vec::new(alloc),
    )?;
    Ok(Record { id, session: 1, tx })
}

// A window of so many records.
fn filled(alloc: Global, count: u8) -> Result<Window, Fail>
    ensures { IfOk result (λ window. length window.log ≡ count) }
{
    let mut window = Window::new(alloc);
    for place in 0..count {
        window.push(entry(alloc, place + 1)?)?;
    }
    Ok(window)
}

// ---- heads

// The ids of the heads that a window of ten records shows.
fn shown(alloc: Global, from: u8, max: u8, committed: u8) -> Result<Vec<u64>, Fail> {
    let window = filled(alloc, 10)?;
    let from = u64::from(from.max(1));
    let committed = u64::from(committed.min(10));
    let mut ids = Vec::new(alloc);
    for head in &window.heads(from, max, committed)? {
        ids.push(head.id)?;
    }
    Ok(ids)
}

#[test]
fn heads_are_cut_by_the_most_and_by_the_committed_mark(rt: HostRuntime) -> Result<(), Fail> {
    let cases = [
        (1, 16, 3, [1, 2, 3].as_slice()),
        (1, 16, 0, &[]),
        (1, 2, 3, &[1, 2]),
        (2, 2, 3, &[2, 3]),
        (3, 2, 3, &[3]),
        (4, 2, 3, &[]),
        (7, 4, 10, &[7, 8, 9, 10]),
        (10, 16, 10, &[10]),
        (11, 16, 10, &[]),
        (200, 16, 10, &[]),
    ];
    for (from, max, committed, ids) in cases {
        let found = shown(rt.alloc(), from, max, committed)?;
        assert!(rt;
            found.as_slice() == ids,
            "from {from}, {max} of {committed}"
        );
    }
    Ok(())
}

// ---- records

// The client of the record of an id.
fn client_of(window: &Window, id: u64) -> Result<Option<u64>, AllocError> {
    match window.entry(id)? {
        Some(entry) => Ok(Some(entry.tx.client())),
        None => Ok(None),
    }
}

#[test]
fn a_record_is_found_by_its_id(rt: HostRuntime) -> Result<(), Fail> {
    let window = filled(rt.alloc(), 10)?;
    let cases = [
        (0, None),
        (1, Some(1)),
        (10, Some(10)),
        (11, None),
        (u64::MAX, None),
    ];
    for (id, client) in cases {
        assert!(rt; client_of(&window, id)? == client, "{id}");
    }
    Ok(())
}

// The first id and the length of the batch that a window of ten records gives of those after a place up to another one.
fn part(alloc: Global, place: u8, upto: u8) -> Result<(u64, u8), Fail> {
    let window = filled(alloc, 10)?;
    let upto = upto.clamp(1, 10);
    let place = place.min(upto - 1);
    let batch = window.batch_after(u64::from(place), u64::from(upto))?;
    Ok((batch.first(), batch.len()))
}

#[test]
fn a_part_has_eight_records_at_most(rt: HostRuntime) -> Result<(), Fail> {
    let cases = [
        ((0, 1), (1, 1)),
        ((0, 10), (1, 8)),
        ((2, 10), (3, 8)),
        ((3, 10), (4, 7)),
        ((3, 5), (4, 2)),
        ((9, 10), (10, 1)),
    ];
    for ((place, upto), told) in cases {
        assert!(rt; part(rt.alloc(), place, upto)? == told, "{place} to {upto}");
    }
    Ok(())
}

// ---- what is added

// The length of a window of two records, and of three more up to an id.
fn extended(alloc: Global, upto: u64) -> Result<u64, Fail> {
    let mut window = filled(alloc, 2)?;
    let more = vec![in alloc; entry(alloc, 3)?, entry(alloc, 4)?, entry(alloc, 5)?]?;
    window.extend(Batch::new(more)?, upto)?;
    Ok(window.len())
}

#[test]
fn a_batch_is_added_up_to_an_id(rt: HostRuntime) -> Result<(), Fail> {
    for (upto, len) in [(0, 2), (2, 2), (3, 3), (4, 4), (5, 5), (u64::MAX, 5)] {
        assert!(rt; extended(rt.alloc(), upto)? == len, "{upto}");
    }
    Ok(())
}

// Adds a record for which there is room, which takes no memory.
fn push_in_room(window: &mut Window, entry: Record)
    requires room { 1 ≤ window.old.room }
    requires next { entry.id ≡ length window.old.log + 1 }
    requires valid { IsRecord entry }
{
    match window.push(entry) {
        Ok(()) => {}
        Err(_) => unreachable!(),
    }
}

// Makes room in a window for one more record and pushes it. The length then, and the client of the last record.
fn pushed(alloc: Global, mut window: Window) -> Result<(u64, Option<u64>), Fail>
    requires { length window.log ≤ 10 }
{
    let id = window.len() as u8 + 1;
    let last = entry(alloc, id)?;
    window.reserve()?;
    push_in_room(&mut window, last);
    Ok((window.len(), client_of(&window, u64::from(id))?))
}

#[test]
fn a_push_after_a_reservation_cannot_fail(rt: HostRuntime) -> Result<(), Fail> {
    let alloc = rt.alloc();
    let mut window = filled(alloc, 2)?;
    assert!(rt; pushed(alloc, filled(alloc, 2)?)? == (3, Some(3)));
    window.clear();
    assert!(rt; client_of(&window, 1)? == None);
    assert!(rt; pushed(alloc, window)? == (1, Some(1)));
    Ok(())
}
