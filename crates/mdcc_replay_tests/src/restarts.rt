//! Centres that crash and restart: whole replays, and the bytes of the logs.
ghost use Rattle.std.specs.Prelude.{IfOk, OnOk};
ghost use Rattle.mdcc_def_protocol.specs.IsCluster.{IsCluster};
ghost use Rattle.mdcc_def_simulation.specs.State.{World as AWorld};
ghost use Rattle.mdcc_world.specs.Represents.{RepresentsWorld};

use crate::replay_rows::{REPORT, Row, SCHEDULE};
use crate::replays::check_behind;
use mdcc_base::{Centre, HeapList, Quorums};
use mdcc_def_language::{Event, EventFault};
use mdcc_option::{Cluster, FastLimit, Schema};
use mdcc_world::World;
use std::alloc::Global;
use std::test::Fail;

// The header of a schedule, and that of its report.
#[derive(Clone, Copy)]
struct Headers {
    schedule: &'static str,
    report: &'static str,
}

const USUAL: Headers = Headers {
    schedule: SCHEDULE,
    report: REPORT,
};

// A centre crashes while an insert is on its way. It restarts with what stands in its log, and
// hears the rest.
const LOG_KEPT: Row = Row {
    lines: "# Centre 5 crashes while an insert is on its way. The other four are a fast quorum and commit it without
# centre 5; the messages to centre 5 wait. Its restart begins its second epoch: it still knows the pear,
# which stands in its log. The last settle delivers what waited, and then it knows the apple too.
begin 1 new:pear:-:20
settle
begin 1 new:apple:-:10
crash 5
settle
read 1 apple
restart 5
read 5 pear
read 5 apple
settle
read 5 apple
",
    report: "begin 1.1.1 next 6
settle
chosen 1.1.1 commit
heard 1 1.1.1 commit
heard 2 1.1.1 commit
heard 3 1.1.1 commit
heard 4 1.1.1 commit
heard 5 1.1.1 commit
settled 14 next 15
begin 1.1.2 next 20
crash 5
settle
chosen 1.1.2 commit
heard 1 1.1.2 commit
heard 2 1.1.2 commit
heard 3 1.1.2 commit
heard 4 1.1.2 commit
settled 11 next 28
read 1 at 1 apple version 1 seen 0 values 10 body -
restart 5 epoch 2
read 2 at 5 pear version 1 seen 0 values 20 body -
read 3 at 5 apple version 0 none
settle
heard 5 1.1.2 commit
settled 3 next 29
read 4 at 5 apple version 1 seen 0 values 10 body -
end events 39 messages 28 commits 2 aborts 0 open 0
",
    error: "",
    status: 0,
};

// A centre whose vote was given crashes and restarts, and the proposal comes to it again.
const PROPOSAL_REPEATED: Row = Row {
    lines: "begin 1 new:a:-:1
deliver 1 2 3 4
begin 2 new:a:-:2
deliver 10 11 12 13 15 16 17 18 22 14
crash 5
restart 5
deliver 14
",
    report: "begin 1.1.1 next 6
deliver 1 next 7
deliver 2 next 8
deliver 3 next 9
deliver 4 next 10
chosen 1.1.1 commit
begin 2.1.1 next 15
deliver 10 next 16
deliver 11 next 17
deliver 12 next 18
deliver 13 next 19
chosen 2.1.1 abort
deliver 15 next 19
deliver 16 next 19
deliver 17 next 19
deliver 18 next 23
heard 2 2.1.1 abort
deliver 22 next 23
heard 5 2.1.1 abort
deliver 14 next 24
crash 5
restart 5 epoch 2
deliver 14 next 25
end events 19 messages 24 commits 1 aborts 1 open 0
",
    error: "",
    status: 0,
};

// A restart of a centre that is up.
const CENTRE_UP: Row = Row {
    lines: "restart 1
",
    report: "",
    error: "mdcc: line 6: Up 1\n",
    status: 4,
};

// A read at a centre that is down.
const CENTRE_DOWN: Row = Row {
    lines: "crash 2
read 2 a
",
    report: "crash 2
",
    error: "mdcc: line 7: Down 2\n",
    status: 4,
};

// A delivery to a centre that is down; of its line nothing is reported.
const ADDRESSEE_DOWN: Row = Row {
    lines: "begin 1 new:a:-:1
crash 2
deliver 1 2
",
    report: "begin 1.1.1 next 6
crash 2
",
    error: "mdcc: line 8: Down 2\n",
    status: 4,
};

// The header of a schedule with three bounds, and that of its report.
const THREE_BOUNDS: Headers = Headers {
    schedule: "mdcc-schedule 1
quorums 5 3 4
gamma 2
bound 0 0
bound 0 20
bound 0 1000000000000000
start
",
    report: "mdcc-report 1
quorums 5 3 4
gamma 2
bound 0 0
bound 0 20
bound 0 1000000000000000
start
",
};

// Messages wait for a centre that is down, and come to it when it is up again.
const MESSAGES_WAIT: Row = Row {
    lines: "crash 2

read 1 kkkkkkkkkkkkkkkkkkkkkkkkkkkkkkkk
begin 4 new:item/1:-:0,7,1
deliver 3 1 5 4
deliver 6 7 8 9
deliver 12 13 10
restart 2
deliver 11 2
deliver 14
crash 3
begin 5 new:item/1:-:0,10,999999999999999
deliver 13 2
deliver 15
",
    report: "crash 2
read 1 at 1 kkkkkkkkkkkkkkkkkkkkkkkkkkkkkkkk version 0 none
begin 4.1.1 next 6
deliver 3 next 7
deliver 1 next 8
deliver 5 next 9
deliver 4 next 10
chosen 4.1.1 commit
deliver 6 next 10
deliver 7 next 10
deliver 8 next 10
deliver 9 next 14
heard 4 4.1.1 commit
deliver 12 next 14
heard 3 4.1.1 commit
deliver 13 next 14
heard 5 4.1.1 commit
deliver 10 next 14
heard 1 4.1.1 commit
restart 2 epoch 2
deliver 11 next 14
heard 2 4.1.1 commit
deliver 2 next 15
deliver 14 next 15
crash 3
begin refused stale item/1 version 1 seen 0
deliver 13 next 15
deliver 2 next 16
deliver 15 next 16
end events 23 messages 15 commits 1 aborts 0 open 0
",
    error: "",
    status: 0,
};

// The header of a schedule whose quorums are all centres, and that of its report.
const FOUR_BOUNDS: Headers = Headers {
    schedule: "mdcc-schedule 1
quorums 5 5 5
gamma 1
bound 0 1000
bound 0 1000000000000000
bound 0 100
bound 0 10
start
",
    report: "mdcc-report 1
quorums 5 5 5
gamma 1
bound 0 1000
bound 0 1000000000000000
bound 0 100
bound 0 10
start
",
};

// The outcome waits for a centre that voted and is down. Begins behind its restart are refused.
const OUTCOME_WAITS: Row = Row {
    lines: "tick 2
settle 1 4 5
begin 5 new:b:-:1,1,1,1
read 2 item/1
deliver 1 4 5
crash 4
deliver 7 3 2 6
tick 2
settle 1 4 5
settle 1 4 5
restart 4
deliver 14
tick 1
read 3 item/1
begin 4 new:b:-:198,0,28,10 set:2:ffffffffffffffffffffffffffffffffffffffffffffffffffffffffffffffffffffffffffffffffffffffffffffffffffffffffffffffffffffffffffffffffffffffffffffffffffffffffffffffffffffffffffffffffffffffffffffffffffffffffffffffffffffffffffffffffffffffffffffffffffffffffffffffff:999,999999999999999,100,1
begin 3 keep:2 new:b:0a0b:1,999999999999999,20,10
",
    report: "tick 2 next 1
settle 1 4 5
settled 0 next 1
begin 5.1.1 next 6
read 1 at 2 item/1 version 0 none
deliver 1 next 7
deliver 4 next 8
deliver 5 next 9
crash 4
deliver 7 next 9
deliver 3 next 10
deliver 2 next 11
chosen 5.1.1 commit
deliver 6 next 11
tick 2 next 11
settle 1 4 5
heard 5 5.1.1 commit
heard 1 5.1.1 commit
settled 4 next 15
settle 1 4 5
settled 0 next 15
restart 4 epoch 2
deliver 14 next 15
heard 4 5.1.1 commit
tick 1 next 15
read 2 at 3 item/1 version 0 none
begin refused stale b version 1 seen 0
begin refused noitem item/1
end events 25 messages 14 commits 1 aborts 0 open 0
",
    error: "",
    status: 0,
};

#[test]
fn restarts(rt: HostRuntime) -> Result<(), Fail> {
    for (headers, row) in [
        (USUAL, LOG_KEPT),
        (USUAL, PROPOSAL_REPEATED),
        (USUAL, CENTRE_UP),
        (USUAL, CENTRE_DOWN),
        (USUAL, ADDRESSEE_DOWN),
        (THREE_BOUNDS, MESSAGES_WAIT),
        (FOUR_BOUNDS, OUTCOME_WAITS),
    ] {
        check_behind(&rt, rt.alloc(), headers.schedule, headers.report, &row)?;
    }
    Ok(())
}

// The bytes of a log behind the first boot of its centre: the mark of a log, an open gate, the
// length of the fact and the fact, and a closed gate.
const FIRST_BOOT: [u8; 19] = [
    0x4d, 0x44, 0x43, 0x43, 0x4c, 0x4f, 0x47, 0x31, 1, 5, 0, 0, 0, 1, 1, 0, 0, 0, 0,
];

// Behind the second boot, where the centre added nothing between the two.
const SECOND_BOOT: [u8; 29] = [
    0x4d, 0x44, 0x43, 0x43, 0x4c, 0x4f, 0x47, 0x31, 1, 5, 0, 0, 0, 1, 1, 0, 0, 0, 1, 5, 0, 0, 0, 1,
    2, 0, 0, 0, 0,
];

fn five_centres() -> Result<Cluster, Fail>
    ensures { IfOk result (λ cluster. IsCluster cluster) }
{
    Ok(Cluster {
        quorums: Quorums::new(5, 3, 4)?,
        schema: Schema::new(&[(0, 1000)])?,
        gamma: 100,
        cells: 65_536,
        limit: FastLimit::Safe,
    })
}

// What happens next in a world; its lines are let go.
fn happen(alloc: Global, world: &mut World, event: &Event) -> Result<(), EventFault>
    requires known { (w : AWorld) × RepresentsWorld world.old w }
    ensures { OnOk result ((w : AWorld) × RepresentsWorld world.new w) }
{
    let mut lines = HeapList::new(alloc);
    world.event(event, &mut lines)
}

#[test]
fn a_log_has_each_boot(rt: HostRuntime) -> Result<(), Fail> {
    let centre = Centre::new(2).ok_or("no centre")?;
    let mut world = World::new(rt.alloc(), five_centres()?)?;
    assert_eq!(rt; world.disks().bytes(2), FIRST_BOOT.as_slice());
    happen(rt.alloc(), &mut world, &Event::Crash(centre))?;
    assert_eq!(rt; world.disks().bytes(2), FIRST_BOOT.as_slice());
    happen(rt.alloc(), &mut world, &Event::Restart(centre))?;
    assert_eq!(rt; world.disks().bytes(2), SECOND_BOOT.as_slice());
    assert_eq!(rt; world.disks().bytes(1), FIRST_BOOT.as_slice());
    Ok(())
}
