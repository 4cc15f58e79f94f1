//! What the real outside opens by address, and its clock.
use crate::meeting::{hear, say};
use outside::links::{Accept, Clock, Link, Listener, Recv};
use outside::names::Outside;
use outside::{ReadEnd, Source, WriteEnd};
use outside_real::RealOutside;
use std::test::Fail;
use std::thread;

/// Whether a caller hears nothing at first, and then both ends hear each other.
fn talk<A: Link, B: Link>(caller: &mut A, link: &mut B) -> bool {
    hear(caller) == Recv::Idle
        && say(caller, b"hello") == Some(WriteEnd::Took(5))
        && hear(link) == Recv::Got(5)
        && say(link, b"bye") == Some(WriteEnd::Took(3))
        && hear(caller) == Recv::Got(3)
}

#[test]
fn listens_and_connects(rt: HostRuntime) -> Result<(), Fail> {
    let mut outside = RealOutside::new(rt.alloc(), &rt);
    let mut listener = outside.listen("127.0.0.1:0").ok_or("listen")?;
    let address = format!(in rt.alloc(); "{}", listener.gate().address()?)?;
    let mut caller = outside.connect(address.as_str()).ok_or("connect")?;
    let Accept::Link(mut link) = listener.accept() else {
        panic!(rt; "no link came");
    };
    assert!(rt; talk(&mut caller, &mut link));
    listener.retire(link);
    assert_eq!(rt; hear(&mut caller), Recv::End);
    outside.close_link(caller);
    outside.close_listener(listener);
    assert_eq!(rt; outside.faults(), 0);
    // nobody is there now
    assert!(rt; outside.connect(address.as_str()).is_none());
    Ok(())
}

/// Texts that are no addresses.
const NO_ADDRESSES: &[&str] = &[
    "",
    "127.0.0.1",
    "localhost:102",
    "127.0.0.1:65536",
    "127.0.0.1:0 ",
];

/// Whether a text is neither listened at nor connected to.
fn refuses<O: Outside>(outside: &mut O, text: &str) -> bool {
    outside.listen(text).is_none() && outside.connect(text).is_none()
}

#[test]
fn refuses_what_is_no_address(rt: HostRuntime) -> Result<(), Fail> {
    let mut outside = RealOutside::new(rt.alloc(), &rt);
    for &text in NO_ADDRESSES {
        assert!(rt; refuses(&mut outside, text), "{text}");
    }
    Ok(())
}

#[test]
fn refuses_a_port_in_use(rt: HostRuntime) -> Result<(), Fail> {
    let mut outside = RealOutside::new(rt.alloc(), &rt);
    let listener = outside.listen("127.0.0.1:0").ok_or("listen")?;
    let address = format!(in rt.alloc(); "{}", listener.gate().address()?)?;
    assert!(rt; outside.listen(address.as_str()).is_none());
    Ok(())
}

/// Whether an input is at its end.
fn is_at_end<S: Source>(source: &mut S) -> bool {
    let mut buf = [0u8; 16];
    source.read(&mut buf) == ReadEnd::End
}

#[test]
fn what_is_opened_goes_to_another_thread(rt: HostRuntime) -> Result<(), Fail> {
    let mut outside = RealOutside::new(rt.alloc(), &rt);
    let listener = outside.listen("127.0.0.1:0").ok_or("listen")?;
    let address = format!(in rt.alloc(); "{}", listener.gate().address()?)?;
    let mut link = outside.connect(address.as_str()).ok_or("connect")?;
    let mut clock = outside.clock().ok_or("clock")?;
    let mut source = outside.open_in("/dev/null").ok_or("in")?;
    let child = thread::spawn(&rt, move || {
        (
            hear(&mut link),
            clock.now().is_some(),
            is_at_end(&mut source),
        )
    })?;
    assert_eq!(rt; child.join(&rt), (Recv::Idle, true, true));
    Ok(())
}
