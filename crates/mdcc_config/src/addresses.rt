//! The addresses of the centres.
ghost use Rattle.std.specs.Prelude.{◌≡◌, ◌+◌, ◌≤◌, [], IfOk, length};
ghost use Rattle.mdcc_base.specs.Unless.{GivesUnless};
ghost use Rattle.mdcc_config.specs.Configuration.{is_config_memory, address_of, each_address};
ghost use Rattle.mdcc_config.specs.IsConfig.{ports_of, centre_ports};

use crate::ConfigFault;
use mdcc_base::{Address, HeapList};
use std::alloc::Global;

// The address of the centre behind so many, where there is such a centre.
fn address_of(
    centres: u8,
    port: u16,
    before: usize,
    host: Option<[u8; 4]>,
) -> Result<Address, ConfigFault>
    requires nine { centres ≤ 9 }
    requires room { port ≤ 65000 }
    requires within { before ≤ centres }
    ensures value { result ≡ address_of centres port (before + 1) host }
    ensures within { IfOk result (λ _. before + 1 ≤ centres) }
    ensures port { IfOk result (λ address. address.port ≡ port + (before + 1)) }
{
    let number = before as u8 + 1;
    match host {
        Some(host) if number <= centres => Ok(Address {
            host,
            port: port + u16::from(number),
        }),
        _ => Err(ConfigFault::Address(number)),
    }
}

/// The address of each centre.
pub(crate) fn addresses_of(
    alloc: Global,
    centres: u8,
    port: u16,
    hosts: &[Option<[u8; 4]>],
) -> Result<HeapList<Address>, ConfigFault>
    requires nine { centres ≤ 9 }
    requires room { port ≤ 65000 }
    ensures value { GivesUnless is_config_memory result (each_address centres port [] hosts.now) }
    ensures ports { IfOk result (λ addresses. ports_of addresses ≡ centre_ports port centres) }
{
    let mut addresses = HeapList::new(alloc);
    for host in hosts {
        addresses.push(address_of(centres, port, addresses.len(), *host)?)?;
    }
    if addresses.len() < usize::from(centres) {
        return Err(ConfigFault::Address(addresses.len() as u8 + 1));
    }
    Ok(addresses)
}
