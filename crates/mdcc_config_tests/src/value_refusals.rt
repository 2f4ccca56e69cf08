//! Configurations with a value that is refused. The expected values come from the format, by hand.
use crate::texts::{ONE_CENTRE, check, check_kind, check_range};
use mdcc_base::QuorumFault;
use mdcc_config::ConfigFault::{self, Address, Kind, Quorums, Range, Schema};
use mdcc_config::MemberName;
use mdcc_option::SchemaFault::{Bound, Count};
use std::test::Fail;

#[test]
fn kinds_of_numbers(rt: HostRuntime) -> Result<(), Fail> {
    let alloc = rt.alloc();
    check_kind(
        &rt,
        alloc,
        MemberName::Centres,
        &[
            r#","centres":"1"}"#,
            r#","centres":null}"#,
            r#","centres":1.0}"#,
            r#","centres":[1]}"#,
        ],
    )?;
    check_kind(
        &rt,
        alloc,
        MemberName::Classic,
        &[r#","classic":true}"#, r#","classic":1e0}"#],
    )?;
    check_kind(
        &rt,
        alloc,
        MemberName::Fast,
        &[r#","fast":{}}"#, r#","fast":-0}"#],
    )?;
    check_kind(
        &rt,
        alloc,
        MemberName::Gamma,
        &[
            r#","gamma":18446744073709551616}"#,
            r#","gamma":-9223372036854775809}"#,
        ],
    )?;
    check_kind(
        &rt,
        alloc,
        MemberName::Port,
        &[r#","port":"9000"}"#, r#","port":0.5}"#],
    )?;
    check_kind(
        &rt,
        alloc,
        MemberName::Cells,
        &[r#","cells":null}"#, r#","cells":"3"}"#],
    )?;
    check_kind(
        &rt,
        alloc,
        MemberName::Wait,
        &[r#","wait":"20"}"#, r#","wait":20.0}"#],
    )?;
    check_kind(
        &rt,
        alloc,
        MemberName::Checkpoint,
        &[r#","checkpoint":"1024"}"#, r#","checkpoint":1e3}"#],
    )
}

#[test]
fn kinds_of_lists_and_texts(rt: HostRuntime) -> Result<(), Fail> {
    let alloc = rt.alloc();
    check_kind(
        &rt,
        alloc,
        MemberName::Bounds,
        &[
            r#","bounds":0}"#,
            r#","bounds":{}}"#,
            r#","bounds":[0,1000]}"#,
            r#","bounds":[[0]]}"#,
            r#","bounds":[[0,1,2]]}"#,
            r#","bounds":[[]]}"#,
            r#","bounds":[[0,"1"]]}"#,
            r#","bounds":[[0,1],[0,1.5]]}"#,
            r#","bounds":[[9223372036854775808,1],[0]]}"#,
            r#","bounds":[[0,18446744073709551616]]}"#,
        ],
    )?;
    check_kind(
        &rt,
        alloc,
        MemberName::Hosts,
        &[
            r#","hosts":"127.0.0.1"}"#,
            r#","hosts":[1]}"#,
            r#","hosts":["x",null]}"#,
            r#","hosts":[["127.0.0.1"]]}"#,
        ],
    )?;
    check_kind(
        &rt,
        alloc,
        MemberName::Limit,
        &[
            r#","limit":1}"#,
            r#","limit":null}"#,
            r#","limit":["safe"]}"#,
        ],
    )
}

#[test]
fn ranges(rt: HostRuntime) -> Result<(), Fail> {
    let alloc = rt.alloc();
    check_range(
        &rt,
        alloc,
        MemberName::Centres,
        &[
            r#","centres":256}"#,
            r#","centres":-1}"#,
            r#","centres":18446744073709551615}"#,
        ],
    )?;
    check_range(
        &rt,
        alloc,
        MemberName::Classic,
        &[r#","classic":256}"#, r#","classic":-9223372036854775808}"#],
    )?;
    check_range(
        &rt,
        alloc,
        MemberName::Fast,
        &[r#","fast":256}"#, r#","fast":-1}"#],
    )?;
    check_range(
        &rt,
        alloc,
        MemberName::Gamma,
        &[r#","gamma":1001}"#, r#","gamma":-1}"#],
    )?;
    check_range(
        &rt,
        alloc,
        MemberName::Bounds,
        &[
            r#","bounds":[[0,9223372036854775808]]}"#,
            r#","bounds":[[0,1],[18446744073709551615,0]]}"#,
        ],
    )?;
    check_range(
        &rt,
        alloc,
        MemberName::Port,
        &[r#","port":0}"#, r#","port":65001}"#, r#","port":-9000}"#],
    )?;
    check_range(
        &rt,
        alloc,
        MemberName::Cells,
        &[r#","cells":0}"#, r#","cells":4194305}"#, r#","cells":-1}"#],
    )?;
    check_range(
        &rt,
        alloc,
        MemberName::Limit,
        &[
            r#","limit":"wide"}"#,
            r#","limit":"Safe"}"#,
            r#","limit":"safe "}"#,
            r#","limit":""}"#,
        ],
    )?;
    check_range(
        &rt,
        alloc,
        MemberName::Wait,
        &[r#","wait":0}"#, r#","wait":60001}"#, r#","wait":-20}"#],
    )?;
    check_range(
        &rt,
        alloc,
        MemberName::Checkpoint,
        &[
            r#","checkpoint":0}"#,
            r#","checkpoint":4294967296}"#,
            r#","checkpoint":-1024}"#,
        ],
    )
}

// All kinds are asked before all ranges, and each in the order of the members.
#[test]
fn order_of_refusals(rt: HostRuntime) -> Result<(), Fail> {
    check(
        &rt,
        rt.alloc(),
        ONE_CENTRE,
        &[
            (r#","limit":1,"centres":256}"#, Kind(MemberName::Limit)),
            (r#","checkpoint":"x","wait":"x"}"#, Kind(MemberName::Wait)),
            (
                r#","checkpoint":"x","centres":256}"#,
                Kind(MemberName::Checkpoint),
            ),
            (r#","wait":"x","limit":1}"#, Kind(MemberName::Limit)),
            (r#","wait":"x","centres":256}"#, Kind(MemberName::Wait)),
            (r#","limit":1,"cells":"x"}"#, Kind(MemberName::Cells)),
            (r#","cells":"x","port":"x"}"#, Kind(MemberName::Port)),
            (r#","port":"x","hosts":1}"#, Kind(MemberName::Hosts)),
            (r#","hosts":1,"bounds":1}"#, Kind(MemberName::Bounds)),
            (r#","bounds":1,"gamma":"x"}"#, Kind(MemberName::Gamma)),
            (r#","gamma":"x","fast":"x"}"#, Kind(MemberName::Fast)),
            (r#","fast":"x","classic":"x"}"#, Kind(MemberName::Classic)),
            (
                r#","classic":"x","centres":"x"}"#,
                Kind(MemberName::Centres),
            ),
            (r#","checkpoint":0,"wait":0}"#, Range(MemberName::Wait)),
            (
                r#","checkpoint":0,"centres":0}"#,
                Range(MemberName::Checkpoint),
            ),
            (r#","wait":0,"limit":"x"}"#, Range(MemberName::Limit)),
            (r#","wait":0,"centres":0}"#, Range(MemberName::Wait)),
            (r#","limit":"x","cells":0}"#, Range(MemberName::Cells)),
            (r#","cells":0,"port":0}"#, Range(MemberName::Port)),
            (
                r#","port":0,"bounds":[[0,9223372036854775808]]}"#,
                Range(MemberName::Bounds),
            ),
            (
                r#","bounds":[[0,9223372036854775808]],"gamma":-1}"#,
                Range(MemberName::Gamma),
            ),
            (r#","gamma":-1,"fast":-1}"#, Range(MemberName::Fast)),
            (r#","fast":-1,"classic":-1}"#, Range(MemberName::Classic)),
            (r#","classic":-1,"centres":-1}"#, Range(MemberName::Centres)),
            (r#","limit":"x","centres":0}"#, Range(MemberName::Limit)),
            (
                r#","hosts":[],"bounds":[],"centres":0}"#,
                Quorums(QuorumFault::Centres),
            ),
            (r#","hosts":[],"bounds":[]}"#, Schema(Count)),
        ],
    )
}

#[test]
fn quorums_and_schemas(rt: HostRuntime) -> Result<(), Fail> {
    check(
        &rt,
        rt.alloc(),
        ONE_CENTRE,
        &[
            (r#","centres":0}"#, Quorums(QuorumFault::Centres)),
            (r#","centres":10}"#, Quorums(QuorumFault::Centres)),
            (r#","classic":2}"#, Quorums(QuorumFault::ClassicRange)),
            (r#","fast":0}"#, Quorums(QuorumFault::FastRange)),
            (
                r#","centres":2,"fast":2}"#,
                Quorums(QuorumFault::ClassicMeet),
            ),
            (
                r#","centres":5,"classic":3,"fast":3}"#,
                Quorums(QuorumFault::FastMeet),
            ),
            (
                r#","bounds":[[0,1],[0,1],[0,1],[0,1],[0,1]]}"#,
                Schema(Count),
            ),
            (r#","bounds":[[1,0]]}"#, Schema(Bound(1))),
            (
                r#","bounds":[[0,1],[0,1000000000000001]]}"#,
                Schema(Bound(2)),
            ),
            (
                r#","bounds":[[0,1],[0,1],[-9223372036854775808,0]]}"#,
                Schema(Bound(3)),
            ),
        ],
    )
}

#[test]
fn addresses(rt: HostRuntime) -> Result<(), Fail> {
    check(
        &rt,
        rt.alloc(),
        ONE_CENTRE,
        &[
            (r#","hosts":[]}"#, Address(1)),
            (r#","hosts":[""]}"#, Address(1)),
            (r#","hosts":["localhost"]}"#, Address(1)),
            (r#","hosts":["127.0.0"]}"#, Address(1)),
            (r#","hosts":["127.0.0.1.1"]}"#, Address(1)),
            (r#","hosts":["127.0.0.1."]}"#, Address(1)),
            (r#","hosts":[".127.0.0.1"]}"#, Address(1)),
            (r#","hosts":["127..0.1"]}"#, Address(1)),
            (r#","hosts":["127.0.0.256"]}"#, Address(1)),
            (r#","hosts":["127.0.0.01"]}"#, Address(1)),
            (r#","hosts":["00.0.0.1"]}"#, Address(1)),
            (r#","hosts":["127.0.0.+1"]}"#, Address(1)),
            (r#","hosts":["127.0.0.-1"]}"#, Address(1)),
            (r#","hosts":[" 127.0.0.1"]}"#, Address(1)),
            (r#","hosts":["127.0.0.1 "]}"#, Address(1)),
            (r#","hosts":["127.0.0.1:9001"]}"#, Address(1)),
            (r#","hosts":["0x7f.0.0.1"]}"#, Address(1)),
            (r#","hosts":["::1"]}"#, Address(1)),
            (r#","hosts":["127.0.0.1","127.0.0.1"]}"#, Address(2)),
            (r#","hosts":["127.0.0.1","x"]}"#, Address(2)),
            (r#","hosts":["x","x"]}"#, Address(1)),
            (r#","centres":3,"classic":2,"fast":3}"#, Address(2)),
            (
                r#","centres":3,"classic":2,"fast":3,"hosts":["1.2.3.4","1.2.3.4"]}"#,
                Address(3),
            ),
            (
                r#","centres":3,"classic":2,"fast":3,"hosts":["1.2.3.4","1.2.3.4","1.2.3"]}"#,
                Address(3),
            ),
            (
                r#","centres":3,"classic":2,"fast":3,"hosts":["1.2.3.4","1.2.3","1.2.3.4","1.2.3.4"]}"#,
                Address(2),
            ),
            (
                r#","centres":3,"classic":2,"fast":3,"hosts":["1.2.3.4","1.2.3.4","1.2.3.4","1.2.3.4","x"]}"#,
                Address(4),
            ),
        ],
    )
}

#[test]
fn no_bound_of_hosts(rt: HostRuntime) -> Result<(), Fail> {
    check(
        &rt,
        rt.alloc(),
        ONE_CENTRE,
        &[(
            r#","centres":9,"classic":5,"fast":7,"hosts":["1.1.1.1","1.1.1.1","1.1.1.1","1.1.1.1","1.1.1.1","1.1.1.1","1.1.1.1","1.1.1.1","1.1.1.1","1.1.1.1","1.1.1.1"]}"#,
            ConfigFault::Address(10),
        )],
    )
}
