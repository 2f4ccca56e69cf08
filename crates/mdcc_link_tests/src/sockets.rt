//! A link over UDP sockets, on loopback.
ghost use Rattle.std.specs.Prelude.{◌<◌};

use mdcc_base::Address;
use mdcc_link::{Link, Received, UdpLink};
use std::test::Fail;
use std::time::{Duration, Instant};

fn at_port(port: u16) -> Address {
    Address {
        host: [127, 0, 0, 1],
        port,
    }
}

// A datagram from one endpoint to another comes once and whole, a longer one than the buffer comes cut, and one that finds no
// receiver is no fault then or later. Whether one waits is told of each endpoint.
#[test]
fn carries_datagrams(rt: HostRuntime) -> Result<(), Fail> {
    let mut buffer = [0u8; 1401];
    let mut link = UdpLink::new(rt.alloc(), &rt);
    assert_eq!(rt; link.bind(1, at_port(39_301)), Ok(()));
    assert_eq!(rt; link.bind(17, at_port(39_317)), Ok(()));
    assert!(rt; link.bind(1, at_port(39_302)).is_err());
    assert!(rt; link.bind(2, at_port(39_301)).is_err());
    assert_eq!(rt; link.send(1, at_port(39_317), b"abc"), Ok(()));
    assert_eq!(rt; link.send(1, at_port(39_317), b"de"), Ok(()));
    assert_eq!(rt; link.receive(17, &mut buffer), Ok(Received::Got(3)));
    assert!(rt; buffer.starts_with(b"abc"));
    assert!(rt; link.waits(17) && !link.waits(1) && !link.waits(3));
    assert_eq!(rt; link.receive(17, &mut buffer), Ok(Received::Got(2)));
    assert!(rt; !link.waits(17));
    assert_eq!(rt; link.send(17, at_port(39_301), b""), Ok(()));
    assert!(rt; link.waits(1) && !link.waits(17) && !link.waits(3));
    assert_eq!(rt; link.receive(1, &mut buffer), Ok(Received::Got(0)));
    assert!(rt; !link.waits(1));
    let long = [7u8; 1500];
    assert_eq!(rt; link.send(17, at_port(39_301), &long), Ok(()));
    assert_eq!(rt; link.receive(1, &mut buffer), Ok(Received::Got(1401)));
    assert!(rt; buffer.iter().all(|byte| *byte == 7));
    assert_eq!(rt; link.send(1, at_port(39_305), b"x"), Ok(()));
    assert_eq!(rt; link.receive(1, &mut buffer), Ok(Received::Nothing));
    assert_eq!(rt; link.receive(17, &mut buffer), Ok(Received::Nothing));
    assert!(rt; link.send(3, at_port(39_301), b"x").is_err());
    assert!(rt; link.send(1, at_port(0), b"x").is_err());
    assert!(rt; link.receive(3, &mut buffer).is_err());
    Ok(())
}

// A centre to which datagrams come all the time has a pause after 4,096 of them, or sooner where one was late: both receives of a turn
// answer that nothing came, though one waits. It comes after that.
#[test]
fn pauses_where_datagrams_never_end(rt: HostRuntime) -> Result<(), Fail> {
    let mut buffer = [0u8; 8];
    let mut link = UdpLink::new(rt.alloc(), &rt);
    assert_eq!(rt; link.bind(1, at_port(39_501)), Ok(()));
    assert_eq!(rt; link.bind(17, at_port(39_517)), Ok(()));
    let mut taken = 0u32;
    for turn in 0..4_097u32 {
        assert_eq!(rt; link.send(17, at_port(39_501), b"own"), Ok(()));
        if link.receive(1, &mut buffer) == Ok(Received::Nothing) {
            break;
        }
        taken = turn + 1;
    }
    assert!(rt; taken > 1_000 && taken <= 4_096);
    assert!(rt; link.waits(1));
    assert_eq!(rt; link.send(1, at_port(39_517), b"client"), Ok(()));
    assert_eq!(rt; link.receive(17, &mut buffer), Ok(Received::Nothing));
    assert!(rt; link.waits(17));
    assert_eq!(rt; link.receive(17, &mut buffer), Ok(Received::Got(6)));
    assert_eq!(rt; link.receive(1, &mut buffer), Ok(Received::Got(3)));
    Ok(())
}

// A receive waits 20 milliseconds where nothing is there, or as long as it is told; not at a client's endpoint where the receive just
// before was at the centre's own.
#[test]
fn waits_when_idle(rt: HostRuntime) -> Result<(), Fail> {
    let mut buffer = [0u8; 8];
    let mut link = UdpLink::new(rt.alloc(), &rt);
    assert_eq!(rt; link.bind(1, at_port(39_401)), Ok(()));
    assert_eq!(rt; link.bind(17, at_port(39_417)), Ok(()));
    let rows = [
        (1, 20, 19, 20_000),
        (17, 20, 0, 15),
        (17, 20, 19, 20_000),
        (1, 150, 149, 20_000),
    ];
    for (at, wait, least, most) in rows {
        link.set_wait(wait);
        let start = Instant::now(&rt)?;
        assert_eq!(rt; link.receive(at, &mut buffer), Ok(Received::Nothing));
        let time = start.elapsed(&rt)?;
        assert!(rt; time >= Duration::from_millis(least) && time < Duration::from_millis(most));
    }
    Ok(())
}

// Thirty turns in which one endpoint of a centre has a datagram and the other has none: no receive waits.
#[test]
fn waits_for_nothing_where_something_lies(rt: HostRuntime) -> Result<(), Fail> {
    let mut buffer = [0u8; 8];
    let mut link = UdpLink::new(rt.alloc(), &rt);
    assert_eq!(rt; link.bind(1, at_port(39_601)), Ok(()));
    assert_eq!(rt; link.bind(17, at_port(39_617)), Ok(()));
    let start = Instant::now(&rt)?;
    for turn in 0..30u8 {
        assert_eq!(rt; link.send(17, at_port(39_601), b"own"), Ok(()));
        assert_eq!(rt; link.receive(1, &mut buffer), Ok(Received::Got(3)));
        assert_eq!(rt; link.receive(17, &mut buffer), Ok(Received::Nothing));
        assert_eq!(rt; link.send(1, at_port(39_617), b"client"), Ok(()));
        assert_eq!(rt; link.receive(1, &mut buffer), Ok(Received::Nothing));
        assert_eq!(rt; link.receive(17, &mut buffer), Ok(Received::Got(6)));
    }
    assert!(rt; start.elapsed(&rt)? < Duration::from_millis(800));
    Ok(())
}
