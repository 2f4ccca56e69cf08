//! A configuration, and where its centres are.
ghost use Rattle.std.specs.Prelude.{◌≡◌, ◌≤◌, ◌<◌, length, slice_get, Some};
ghost use Rattle.mdcc_config.specs.IsConfig.{IsConfig, address_above};

use mdcc_base::{Address, Centre, HeapList};
use mdcc_option::Cluster;

/// What all nodes of a cluster are started with.
#[derive(Debug, Drop)]
pub struct Config {
    pub cluster: Cluster,
    /// For each centre its host and its port, which is `port` plus its number.
    pub addresses: HeapList<Address>,
    /// The port from which the others are counted.
    pub port: u16,
    /// How many milliseconds a receive waits at most.
    pub wait: u16,
    /// After how many frames a checkpoint of a log is due.
    pub checkpoint: u32,
}

// The address in this place of a list.
fn address_at(addresses: &[Address], place: usize) -> Address
    requires { place < length addresses.now }
    ensures { slice_get addresses.now place ≡ Some result }
{
    addresses[place]
}

impl Config {
    // The address at the host of a centre, on a port so far above that of the centre.
    #[tactic(auto, using(crate::proofs::Ports::address_for_each))]
    fn address_above(&self, above: u16, centre: Centre) -> Address
        requires config { IsConfig self.now }
        requires centre { centre ≤ self.now.cluster.quorums.centres }
        requires above { above ≤ 32 }
        ensures { Some result ≡ address_above self.now above centre }
    {
        let number = centre.number();
        let host = address_at(self.addresses.as_slice(), usize::from(number) - 1).host;
        Address {
            host,
            port: self.port + above + u16::from(number),
        }
    }

    /// Where a centre receives the messages of the other centres.
    pub fn centre_address(&self, centre: Centre) -> Address
        requires config { IsConfig self.now }
        requires centre { centre ≤ self.now.cluster.quorums.centres }
        ensures { Some result ≡ address_above self.now 0 centre }
    {
        self.address_above(0, centre)
    }

    /// Where a centre receives the messages of its client.
    pub fn client_address(&self, centre: Centre) -> Address
        requires config { IsConfig self.now }
        requires centre { centre ≤ self.now.cluster.quorums.centres }
        ensures { Some result ≡ address_above self.now 16 centre }
    {
        self.address_above(16, centre)
    }

    /// Where the client of a centre receives its answers.
    pub fn answer_address(&self, centre: Centre) -> Address
        requires config { IsConfig self.now }
        requires centre { centre ≤ self.now.cluster.quorums.centres }
        ensures { Some result ≡ address_above self.now 32 centre }
    {
        self.address_above(32, centre)
    }
}
