//! Bytes as earlier builds wrote them, when messages had fifteen kinds and facts five: they are read as before.
use crate::bytes::{ballot, deltas, options};
use crate::journal::{fact_of, is_adoption, is_boot, is_heard_as, is_promise, is_vote};
use crate::worked::ASK;
use mdcc_base::Centre;
use mdcc_disks::{Disks, MemoryDisks};
use mdcc_frag::{Joined, Joiner};
use mdcc_log::Frames;
use mdcc_option::Outcome;
use mdcc_wire::view;
use std::test::*;

/// The log of centre 1: a start, a promise, a vote with two marks, an abort and what another centre gave.
const LOG: [u8; 197] = [
    77, 68, 67, 67, 76, 79, 71, 49, 1, 5, 0, 0, 0, 1, 2, 1, 0, 0, 1, 28, 0, 0, 0, 2, 1, 97, 7, 0,
    0, 0, 0, 0, 0, 0, 107, 0, 0, 0, 0, 0, 0, 0, 2, 0, 0, 0, 3, 0, 0, 0, 4, 1, 77, 0, 0, 0, 3, 1,
    97, 7, 0, 0, 0, 0, 0, 0, 0, 2, 0, 0, 0, 3, 0, 0, 0, 4, 2, 0, 0, 0, 1, 1, 1, 0, 0, 0, 1, 0, 0,
    0, 1, 97, 7, 0, 0, 0, 0, 0, 0, 0, 2, 1, 2, 5, 0, 0, 0, 0, 0, 0, 0, 1, 1, 97, 7, 0, 0, 0, 0, 0,
    0, 0, 0, 2, 1, 0, 0, 0, 2, 1, 0, 0, 0, 1, 11, 0, 0, 0, 4, 1, 1, 0, 0, 0, 1, 0, 0, 0, 0, 1, 42,
    0, 0, 0, 5, 1, 97, 7, 0, 0, 0, 0, 0, 0, 0, 1, 255, 1, 254, 255, 255, 255, 255, 255, 255, 255,
    1, 1, 1, 0, 0, 0, 1, 0, 0, 0, 1, 2, 5, 0, 0, 0, 0, 0, 0, 0, 0,
];

/// The worked question, as the first datagram that centre 2 sent in its first epoch.
const DATAGRAM: [u8; 40] = [
    2, 1, 0, 0, 0, 1, 0, 0, 0, 23, 0, 0, 0, 0, 0, 1, 0, 1, 10, 2, 3, 1, 1, 0, 0, 0, 1, 0, 0, 0, 1,
    98, 0, 0, 0, 0, 0, 0, 0, 0,
];

#[test]
fn a_log(rt: HostRuntime) -> Result<(), Fail> {
    let alloc = rt.alloc();
    let mut disks = MemoryDisks::new(alloc, 17, &[])?;
    assert!(rt; disks.write_at(1, 0, LOG.as_slice()).is_ok());
    let (_log, payloads) = Frames::open(alloc, &mut disks, Centre::default(), 1_000)?;
    let [boot, promise, vote, end, given] = payloads.as_slice() else {
        return Err("it has five facts".into());
    };
    assert!(rt; is_boot(&fact_of(alloc, boot.as_slice())?));
    assert!(rt; is_promise(&fact_of(alloc, promise.as_slice())?));
    assert!(rt;
        is_vote(
            &fact_of(alloc, vote.as_slice())?,
            &ballot(),
            &options(alloc)?,
            &None
        )
    );
    assert!(rt; is_heard_as(&fact_of(alloc, end.as_slice())?, &Outcome::Abort));
    assert!(rt; is_adoption(&fact_of(alloc, given.as_slice())?, &deltas(alloc)?));
    assert!(rt; disks.bytes(1) == LOG.as_slice());
    Ok(())
}

#[test]
fn a_datagram(rt: HostRuntime) -> Result<(), Fail> {
    let alloc = rt.alloc();
    let mut joiner = Joiner::new(alloc)?;
    let Joined::Whole(message) = joiner.join(alloc, &DATAGRAM)? else {
        return Err("it has a whole message".into());
    };
    assert!(rt; message.as_slice() == ASK.as_slice());
    let viewed = view(message.as_slice())
        .ok()
        .ok_or("the bytes are a message")?;
    assert!(rt; viewed.kind() == 10);
    Ok(())
}
