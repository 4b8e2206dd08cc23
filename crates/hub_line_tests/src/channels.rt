use hub_channel::{LineTaken, NotPosted, PortTaken, new_pair_of_channel_ports};
use std::test::Fail;

/// Each token is handed out once: to the peer's post or close, or back to its port. No contract
/// says which token a call answers.
#[test]
fn a_token_is_handed_out_once(rt: HostRuntime) -> Result<(), Fail> {
    let (mut left, mut right) = new_pair_of_channel_ports(rt.alloc(), 9)?;
    assert_eq!(rt; left.channel_name(), 9);
    assert_eq!(rt; right.arm(41).token, 0);
    assert_eq!(rt; right.arm(42).token, 41);
    assert!(rt; matches!(left.post(1u64), Ok(42)));
    assert!(rt; matches!(left.post(2), Ok(0)));
    assert_eq!(rt; right.adopt(43).token, 0);
    assert!(rt; matches!(left.post(3), Ok(43)));
    left.arm(44);
    let closed = right.close();
    assert_eq!(rt; (closed.token, closed.wake), (0, 44));
    Ok(())
}

#[test]
fn an_armed_port_is_looked_into(rt: HostRuntime) -> Result<(), Fail> {
    let (mut left, mut right) = new_pair_of_channel_ports(rt.alloc(), 1)?;
    assert!(rt; !right.arm(5).waits);
    assert!(rt; matches!(left.post(1u64), Ok(5)));
    assert!(rt; right.arm(5).waits);
    assert!(rt; right.adopt(6).waits);
    right.start();
    assert!(rt; matches!(right.take(), PortTaken::Message(1)));
    assert!(rt; !right.arm(5).waits);
    drop(left);
    assert!(rt; right.arm(5).waits);
    Ok(())
}

#[test]
fn a_port_is_disabled_until_it_is_started(rt: HostRuntime) -> Result<(), Fail> {
    let (mut left, mut right) = new_pair_of_channel_ports(rt.alloc(), 1)?;
    assert!(rt; left.post(1u64).is_ok());
    assert!(rt; matches!(right.take(), PortTaken::Disabled));
    right.start();
    assert!(rt; matches!(right.take(), PortTaken::Message(1)));
    right.adopt(0);
    assert!(rt; matches!(right.take(), PortTaken::Disabled));
    Ok(())
}

/// The peer takes the end behind all that was posted, and ends its own line so: the closed port's
/// grave hands back what was posted there, up to the end.
#[test]
fn a_closed_port_tells_its_peer(rt: HostRuntime) -> Result<(), Fail> {
    let (mut left, mut right) = new_pair_of_channel_ports(rt.alloc(), 1)?;
    left.start();
    right.start();
    for n in 0..100u64 {
        assert!(rt; left.post(n).is_ok());
        assert!(rt; right.post(n).is_ok());
    }
    let mut closed = left.close();
    for n in 0..100u64 {
        assert!(rt; matches!(right.take(), PortTaken::Message(got) if got == n));
        assert!(rt; matches!(closed.grave.take_leftover(), LineTaken::Item(got) if got == n));
    }
    assert!(rt; matches!(closed.grave.take_leftover(), LineTaken::Empty));
    assert!(rt; matches!(right.take(), PortTaken::Ended));
    assert!(rt; matches!(closed.grave.take_leftover(), LineTaken::Ended));
    assert!(rt; matches!(right.post(7), Err((NotPosted::Closed, 7))));
    Ok(())
}
