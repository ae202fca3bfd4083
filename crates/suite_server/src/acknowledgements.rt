use quorum_append::Acks;
use std::test::Fail;

// A smaller length after a greater one of the same node changes nothing.
#[test]
fn the_mark_is_the_length_that_a_quorum_acknowledged(rt: HostRuntime) -> Result<(), Fail> {
    let mut acks = Acks::new(3);
    acks.ack(1, 4);
    acks.ack(2, 2);
    acks.ack(1, 3);
    assert!(rt; (acks.mark(), acks.held(4)) == (2, 1));
    Ok(())
}
