use net_model::{Envelope, Mail, Party, Pool};
use proto_model::ToServer;
use std::test::Fail;

fn envelope(server: u8) -> Envelope {
    Envelope {
        from: Party::Client(1),
        to: Party::Server(server),
        message: Mail::ToServer(ToServer::Flush),
    }
}

// To whom the envelope of a number goes.
fn receiver(pool: &Pool, number: u32) -> Option<Party> {
    match pool.get(number) {
        Some(envelope) => Some(envelope.to),
        None => None,
    }
}

#[test]
fn envelopes_are_numbered_from_1_and_kept(rt: HostRuntime) -> Result<(), Fail> {
    let mut pool = Pool::new(rt.alloc());
    let numbers = [pool.add(envelope(1))?, pool.add(envelope(2))?];
    assert!(rt; numbers == [1, 2]);
    let found = [
        receiver(&pool, 0),
        receiver(&pool, 1),
        receiver(&pool, 2),
        receiver(&pool, 3),
    ];
    let (first, second) = (Some(Party::Server(1)), Some(Party::Server(2)));
    assert!(rt; found == [None, first, second, None]);
    Ok(())
}

#[test]
fn the_cursor_stops_behind_the_last_envelope(rt: HostRuntime) -> Result<(), Fail> {
    let mut pool = Pool::new(rt.alloc());
    pool.advance();
    let none = pool.cursor();
    pool.add(envelope(1))?;
    pool.advance();
    let past = pool.cursor();
    pool.advance();
    assert!(rt; [none, past, pool.cursor()] == [1, 2, 2]);
    Ok(())
}
