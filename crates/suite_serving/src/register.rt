ghost use Rattle.std.specs.Prelude.{◌≡◌, IfOk, length};

use crate::server::{CAS_0, LOST_1, READ, VALUE_0, WON_1, are, link_of};
use server_loop::LinkRegister;
use session_register::{Cas, Register, RegisterFault};
use std::alloc::Global;
use std::test::Fail;
use wire_codec::MAX_FRAME;

// The room for a reply.
fn room(alloc: Global) -> Result<Vec<u8>, Fail>
    ensures { IfOk result (λ room. length room.items ≡ MAX_FRAME) }
{
    Ok(vec![in alloc; 0; MAX_FRAME]?)
}

// What a register at a port of a link is asked.
const ASKED: [&str; 3] = [READ, CAS_0, CAS_0];

// What it answers to that.
type Answers = (
    Result<u64, RegisterFault>,
    Result<Cas, RegisterFault>,
    Result<Cas, RegisterFault>,
);

// The answers of a register over a link with these replies, and whether just that was asked.
fn answers(alloc: Global, replies: &[&str]) -> Result<(Answers, bool), Fail> {
    let mut link = link_of(alloc, replies, 0)?;
    let mut room = room(alloc)?;
    let mut register = LinkRegister::new(alloc, &mut link, 7000, &mut room);
    let answers = (register.read(), register.cas(0), register.cas(0));
    Ok((answers, are(alloc, link.sent(), &ASKED)?))
}

#[test]
fn a_register_over_a_link_answers_what_its_peer_replies(rt: HostRuntime) -> Result<(), Fail> {
    let garbled = RegisterFault::Garbled;
    let cases = [
        (
            [VALUE_0, WON_1, LOST_1],
            (Ok(0), Ok(Cas::Won(1)), Ok(Cas::Lost(1))),
        ),
        (
            [WON_1, VALUE_0, READ],
            (Err(garbled), Err(garbled), Err(garbled)),
        ),
    ];
    for (replies, want) in cases {
        assert!(rt; answers(rt.alloc(), &replies)? == (want, true));
    }
    Ok(())
}
