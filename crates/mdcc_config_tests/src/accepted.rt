//! Configurations that are read. The expected values come from the format, by hand.
ghost use Rattle.mdcc_config.specs.IsConfig.{IsConfig};

use crate::texts::{ONE_CENTRE, joined};
use mdcc_base::Centre;
use mdcc_config::{Address, Config, read_config};
use mdcc_option::FastLimit;
use std::alloc::Global;
use std::process::Abort;
use std::test::Fail;

// Five centres, with all members, in another order and with white space.
const FIVE_CENTRES: &str = r#"
{ "checkpoint": 4294967295, "wait": 60000, "limit": "paper",
  "cells": 4194304, "port": 65000,
  "hosts": ["127.0.0.1", "10.0.0.2", "0.0.0.0", "255.255.255.255", "192.168.10.100"],
  "bounds": [[0, 0], [-5, 7], [-1000000000000000, 1000000000000000], [1, 1]],
  "gamma": 0, "fast": 4, "classic": 3, "centres": 5 }
"#;

// Whether these are the sizes of the quorums.
fn are_sizes(config: &Config, centres: u8, classic: u8, fast: u8) -> bool {
    let quorums = &config.cluster.quorums;
    quorums.centres() == centres && quorums.classic() == classic && quorums.fast() == fast
}

// The configuration that a text is.
fn config_of(rt: &impl Abort, alloc: Global, text: &str) -> Config
    ensures { IsConfig result }
{
    read_config(alloc, text.as_bytes()).expect(rt, "a configuration")
}

#[test]
fn one_centre(rt: HostRuntime) -> Result<(), Fail> {
    let text = joined(rt.alloc(), ONE_CENTRE, "}")?;
    let config = config_of(&rt, rt.alloc(), text.as_str());
    assert!(rt; are_sizes(&config, 1, 1, 1));
    assert!(rt; config.cluster.gamma == 100 && config.cluster.cells == 1_048_576);
    assert!(rt; config.cluster.limit == FastLimit::Safe);
    assert!(rt; config.cluster.schema.bounds() == [(0, 1000)].as_slice());
    assert!(rt; config.port == 9000 && config.wait == 20);
    assert!(rt; config.checkpoint == 1024);
    let address = Address {
        host: [127, 0, 0, 1],
        port: 9001,
    };
    assert!(rt; config.addresses.as_slice() == [address].as_slice());
    Ok(())
}

#[test]
fn five_centres(rt: HostRuntime) -> Result<(), Fail> {
    let config = config_of(&rt, rt.alloc(), FIVE_CENTRES);
    assert!(rt; are_sizes(&config, 5, 3, 4));
    assert!(rt; config.cluster.gamma == 0 && config.cluster.cells == 4_194_304);
    assert!(rt; config.cluster.limit == FastLimit::Paper);
    let bounds = [
        (0, 0),
        (-5, 7),
        (-1_000_000_000_000_000, 1_000_000_000_000_000),
        (1, 1),
    ];
    assert!(rt; config.cluster.schema.bounds() == bounds.as_slice());
    assert!(rt; config.port == 65_000 && config.wait == 60_000);
    assert!(rt; config.checkpoint == 4_294_967_295);
    let hosts = [
        [127, 0, 0, 1],
        [10, 0, 0, 2],
        [0, 0, 0, 0],
        [255, 255, 255, 255],
        [192, 168, 10, 100],
    ];
    assert!(rt; config.addresses.len() == hosts.len());
    for i in 0..hosts.len() {
        let address = config.addresses.as_slice()[i];
        assert!(rt; address.host == hosts[i] && address.port == 65_001 + i as u16);
    }
    Ok(())
}

// Whether a centre is at this host, and on these ports for other centres, its client, and the client's answers.
fn is_at(config: &Config, number: u8, host: [u8; 4], ports: [u16; 3]) -> bool
    requires { IsConfig config.now }
{
    let Some(centre) = Centre::new(number) else {
        return false;
    };
    if centre.number() > config.cluster.quorums.centres() {
        return false;
    }
    let addresses = [
        config.centre_address(centre),
        config.client_address(centre),
        config.answer_address(centre),
    ];
    for i in 0..3 {
        if addresses[i].host != host || addresses[i].port != ports[i] {
            return false;
        }
    }
    true
}

#[test]
fn addresses_of_centres(rt: HostRuntime) -> Result<(), Fail> {
    let config = config_of(&rt, rt.alloc(), FIVE_CENTRES);
    assert!(rt; is_at(&config, 1, [127, 0, 0, 1], [65_001, 65_017, 65_033]));
    assert!(rt; is_at(&config, 5, [192, 168, 10, 100], [65_005, 65_021, 65_037]));
    assert!(rt; !is_at(&config, 6, [192, 168, 10, 100], [65_006, 65_022, 65_038]));
    let text = joined(rt.alloc(), ONE_CENTRE, "}")?;
    let config = config_of(&rt, rt.alloc(), text.as_str());
    assert!(rt; is_at(&config, 1, [127, 0, 0, 1], [9001, 9017, 9033]));
    Ok(())
}

// Of a member that is repeated the last value counts, a name may be written with escapes, and the ends
// of the ranges are inside.
#[test]
fn members_that_are_repeated(rt: HostRuntime) -> Result<(), Fail> {
    let rows = [
        (r#","port":1}"#, 1, 100, 1_048_576, FastLimit::Safe),
        (
            r#","port":0,"port":65000}"#,
            65_000,
            100,
            1_048_576,
            FastLimit::Safe,
        ),
        (
            r#","p\u006frt":7,"gamma":1000}"#,
            7,
            1000,
            1_048_576,
            FastLimit::Safe,
        ),
        (
            r#","port":"x","port":8,"gamma":0}"#,
            8,
            0,
            1_048_576,
            FastLimit::Safe,
        ),
        (r#","cells":0,"cells":1}"#, 9000, 100, 1, FastLimit::Safe),
        (
            r#","limit":"paper"}"#,
            9000,
            100,
            1_048_576,
            FastLimit::Paper,
        ),
        (
            r#","limit":"paper","limit":"safe"}"#,
            9000,
            100,
            1_048_576,
            FastLimit::Safe,
        ),
        (
            r#","limit":"s\u0061fe","cells":4194304}"#,
            9000,
            100,
            4_194_304,
            FastLimit::Safe,
        ),
    ];
    for (rest, port, gamma, cells, limit) in &rows {
        let text = joined(rt.alloc(), ONE_CENTRE, rest)?;
        let config = config_of(&rt, rt.alloc(), text.as_str());
        assert!(rt;
            config.port == *port && config.cluster.gamma == *gamma,
            "{rest}"
        );
        assert!(rt;
            config.cluster.cells == *cells && config.cluster.limit == *limit,
            "{rest}"
        );
    }
    Ok(())
}
