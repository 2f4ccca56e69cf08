//! Datagrams that are no message of the cluster.
ghost use Rattle.std.specs.Prelude.{IfSome};
ghost use Rattle.mdcc_wire.specs.Counts.{HasMessageCounts};

use crate::made::{ONE, put, put_bytes, serve_all, serve_first};
use mdcc_base::{Centre, Key, MemorySink, TxId};
use mdcc_def_messages::{Envelope, Message};
use mdcc_link::MemoryLink;
use mdcc_wire::encode;
use std::alloc::Global;
use std::test::Fail;

const DROPPED: &[u8] = b"boot 1 epoch 1\ndone turns 8 steps 4 dropped 4 lost 0\n";

const ASKED: &[u8] = b"boot 1 epoch 1\ndone turns 4 steps 3 dropped 1 lost 0\n";

const UNTAKEN: &[u8] = b"boot 1 epoch 1\ndone turns 4 steps 2 dropped 2 lost 0\n";

// Three centres.
const THREE: &[u8] =
    b"{\"centres\":3,\"classic\":2,\"fast\":3,\"gamma\":100,\"bounds\":[[0,1000]],\"hosts\":[\"127.0.0.1\",\"127.0.0.1\",\"127.0.0.1\"],\"port\":9000,\"cells\":100}";

// From 2 to 1, in the second format: 2 has heard its transactions of epoch 7 through the third; 1.1.1 is finished.
const MARK: &[u8] = &[2, 16, 2, 1, 2, 7, 0, 0, 0, 3, 0, 0, 0];

const FINISHED: &[u8] = &[2, 17, 2, 1, 1, 1, 0, 0, 0, 1, 0, 0, 0];

// A piece of an empty message.
const EMPTY: &[u8] = &[1, 7, 0, 0, 0, 1, 0, 0, 0, 0, 0, 0, 0, 0, 0, 1, 0];

// An Ask from 2 to 3 for 1.1.1 at key `b`, version 0.
fn ask() -> Option<Envelope>
    ensures { IfSome result (λ envelope. HasMessageCounts envelope.message) }
{
    Some(Envelope {
        from: 2,
        to: 3,
        message: Message::Ask {
            tx: TxId {
                centre: Centre::new(1)?,
                epoch: 1,
                seq: 1,
            },
            key: Key::new(b"b")?,
            version: 0,
        },
    })
}

// A datagram of sixteen bytes, a piece of an empty message, a message for another centre, and one that is cut short.
fn are_dropped(alloc: Global) -> Option<bool> {
    let mut link = MemoryLink::new(alloc, &[]).ok()?;
    let mut out = MemorySink::new(alloc, &[]).ok()?;
    let envelope = ask()?;
    let mut bytes = Vec::new(alloc);
    encode(&envelope, &mut bytes).ok()?;
    if bytes.len() != 23 {
        return None;
    }
    link.put(1, &[0; 16]).ok()?;
    link.put(1, EMPTY).ok()?;
    let whole = put(alloc, &mut link, 1, 2, &envelope);
    let cut = put_bytes(&mut link, 1, 2, 3, &bytes[..22]);
    let served = serve_all(alloc, ONE, 8, &[], &mut link, &mut out)?;
    Some(whole && cut && served.is_ok() && out.bytes() == DROPPED)
}

// Messages whose rules are not built.
fn are_untaken(alloc: Global) -> Option<bool> {
    let mut link = MemoryLink::new(alloc, &[]).ok()?;
    let mut out = MemorySink::new(alloc, &[]).ok()?;
    let mark = put_bytes(&mut link, 1, 2, 1, MARK);
    let finished = put_bytes(&mut link, 1, 2, 2, FINISHED);
    let served = serve_first(alloc, THREE, 4, &mut link, &mut out)?;
    Some(mark && finished && served.is_ok() && out.bytes() == UNTAKEN)
}

fn is_dropped_at_client(alloc: Global) -> Option<bool> {
    let mut link = MemoryLink::new(alloc, &[]).ok()?;
    let mut out = MemorySink::new(alloc, &[]).ok()?;
    let waits = put(alloc, &mut link, 17, 2, &ask()?);
    let served = serve_all(alloc, ONE, 4, &[], &mut link, &mut out)?;
    Some(waits && served.is_ok() && out.bytes() == ASKED)
}

#[test]
fn four_datagrams_are_dropped(rt: HostRuntime) -> Result<(), Fail> {
    assert!(rt; are_dropped(rt.alloc()) == Some(true));
    Ok(())
}

#[test]
fn messages_of_rules_that_are_not_built_are_dropped(rt: HostRuntime) -> Result<(), Fail> {
    assert!(rt; are_untaken(rt.alloc()) == Some(true));
    Ok(())
}

#[test]
fn a_message_of_the_cluster_is_dropped_at_the_client_s_endpoint(
    rt: HostRuntime,
) -> Result<(), Fail> {
    assert!(rt; is_dropped_at_client(rt.alloc()) == Some(true));
    Ok(())
}
