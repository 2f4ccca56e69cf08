//! One answer to a client, from its sender to the client's end.
use mdcc_base::{Centre, MemorySink, TxId};
use mdcc_config::read_config;
use mdcc_def_messages::{ClientAnswer, Message};
use mdcc_def_server_runs::ServerLine;
use mdcc_frag::Joiner;
use mdcc_link::MemoryLink;
use mdcc_serve_inbox::{Found, take_datagram};
use mdcc_serve_outbox::{Clients, Outgoing, Sender, answer_to, print};
use mdcc_wire::empty_envelope;
use std::alloc::Global;
use std::test::Fail;

const ONE: &[u8] =
    b"{\"centres\":1,\"classic\":1,\"fast\":1,\"gamma\":100,\"bounds\":[[0,1000]],\"hosts\":[\"127.0.0.1\"],\"port\":9000}";

const LINES: &[u8] =
    b"boot 1 epoch 2\nheard 1 1.2.3 abort\ndone turns 8 steps 7 dropped 6 lost 5\n";

fn first() -> Option<TxId> {
    Some(TxId {
        centre: Centre::new(1)?,
        epoch: 2,
        seq: 3,
    })
}

fn sender(centre: Centre) -> Sender {
    Sender {
        centre,
        epoch: 2,
        sent: 0,
        lost: 0,
    }
}

fn are_printed(alloc: Global) -> Option<bool> {
    let one = Centre::new(1)?;
    let done = ServerLine::Done {
        turns: 8,
        steps: 7,
        dropped: 6,
        lost: 5,
    };
    let mut out = MemorySink::new(alloc, &[]).ok()?;
    print(alloc, &ServerLine::Booted(one, 2), &mut out).ok()?;
    print(alloc, &ServerLine::Heard(one, first()?, false), &mut out).ok()?;
    print(alloc, &done, &mut out).ok()?;
    Some(out.bytes() == LINES)
}

fn are_kept(alloc: Global) -> Option<bool> {
    let tx = first()?;
    let mut clients = Clients::new(alloc);
    clients.begin(7, tx).ok()?;
    let begun = clients.begun_for(7)?;
    let open = clients.known_of(&tx)?;
    clients.end(tx, 7, true).ok()?;
    let ended = clients.known_of(&tx)?;
    let other = clients.begun_for(8);
    Some(
        begun.seq == 3
            && open.serial == 7
            && open.ended.is_none()
            && ended.ended == Some(true)
            && other.is_none(),
    )
}

// Sends an answer under serial 1, over a link whose calls of these numbers fail.
fn sent(alloc: Global, script: &[u32]) -> Option<(Sender, MemoryLink)> {
    let Ok(config) = read_config(alloc, ONE) else {
        return None;
    };
    let one = Centre::new(1)?;
    let mut link = MemoryLink::new(alloc, script).ok()?;
    let mut sender = sender(one);
    let answer = answer_to(one, 7, ClientAnswer::Begun(first()?));
    let message = Outgoing::new(alloc, &answer).ok()?;
    sender.send(&config, &mut link, &message).ok()?;
    Some((sender, link))
}

fn is_received(alloc: Global) -> Option<bool> {
    let (sender, link) = sent(alloc, &[])?;
    let (from, address, datagram) = link.sent(0)?;
    if datagram.len() < 16 {
        return None;
    }
    let mut joiner = Joiner::new(alloc).ok()?;
    let mut envelope = empty_envelope();
    let found = take_datagram(alloc, &mut joiner, datagram, &mut envelope).ok()?;
    let again = take_datagram(alloc, &mut joiner, &datagram[..16], &mut empty_envelope()).ok()?;
    let serial = match &envelope.message {
        Message::ClientAnswer { serial, .. } => *serial,
        _ => 0,
    };
    Some(
        from == 1
            && address.port == 9033
            && sender.sent == 1
            && sender.lost == 0
            && found == Found::Message
            && envelope.to == 17
            && serial == 7
            && again == Found::Refused,
    )
}

fn is_lost(alloc: Global) -> Option<bool> {
    let (sender, link) = sent(alloc, &[1])?;
    Some(sender.sent == 1 && sender.lost == 1 && link.sent(0).is_none())
}

#[test]
fn lines_are_printed(rt: HostRuntime) -> Result<(), Fail> {
    assert!(rt; are_printed(rt.alloc()) == Some(true));
    Ok(())
}

#[test]
fn what_a_client_began_is_kept(rt: HostRuntime) -> Result<(), Fail> {
    assert!(rt; are_kept(rt.alloc()) == Some(true));
    Ok(())
}

#[test]
fn an_answer_comes_to_its_client(rt: HostRuntime) -> Result<(), Fail> {
    assert!(rt; is_received(rt.alloc()) == Some(true));
    Ok(())
}

#[test]
fn a_send_that_fails_is_lost(rt: HostRuntime) -> Result<(), Fail> {
    assert!(rt; is_lost(rt.alloc()) == Some(true));
    Ok(())
}
