//! Whole texts, and which shops there are.
ghost use Rattle.mdcc_sample.specs.Shop.{IsShop};

use mdcc_sample::{is_shop, sample_text};
use std::alloc::Global;

// Three items and no order, whatever the seed.
const EMPTY: &str =
    "mdcc-schedule 1\nquorums 5 3 4\ngamma 100\nbound 0 1000000\nstart\nbegin 1 new:item/1:-:1000\nbegin 2 new:item/2:-:1000\nbegin 3 new:item/3:-:1000\nsettle\nsettle\ntick 1\ntick 2\ntick 3\ntick 4\ntick 5\nsettle\ntick 1\ntick 2\ntick 3\ntick 4\ntick 5\nsettle\n";

// Three items and four orders by the seed 1. The second order is drawn for centre 3, which is down then. One of the third items
// moves by one, and one by two.
const FOUR: &str =
    "mdcc-schedule 1\nquorums 5 3 4\ngamma 100\nbound 0 1000000\nstart\nbegin 1 new:item/1:-:1000\nbegin 2 new:item/2:-:1000\nbegin 3 new:item/3:-:1000\nsettle\nread 5 item/3\nread 5 item/2\nread 5 item/1\nbegin 5 add:1:1=-3 add:2:1=-3 add:3:1=-1\ncrash 3\nread 4 item/3\nread 4 item/1\nread 4 item/2\nbegin 4 add:4:1=-3 add:5:1=-2 add:6:1=-2\nrestart 3\nsettle\nread 3 item/2\nread 3 item/3\nread 3 item/1\nbegin 3 add:7:1=-1 add:8:1=-2 add:9:1=-1\nread 4 item/1\nread 4 item/3\nread 4 item/2\nbegin 4 add:10:1=-2 add:11:1=-3 add:12:1=-2\nsettle\ntick 1\ntick 2\ntick 3\ntick 4\ntick 5\nsettle\ntick 1\ntick 2\ntick 3\ntick 4\ntick 5\nsettle\n";

// Numbers of items and orders, and whether a shop may have them.
const SHOPS: [(u32, u32, bool); 9] = [
    (3, 0, true),
    (2, 0, false),
    (3, 15, true),
    (3, 16, false),
    (200, 1000, true),
    (201, 0, false),
    (200, 1001, false),
    (199, 995, true),
    (199, 996, false),
];

// The hash FNV-1a of 64 bits.
fn hash(bytes: &[u8]) -> u64 {
    let mut hash = 0xcbf2_9ce4_8422_2325u64;
    for byte in bytes {
        hash = (hash ^ u64::from(*byte)).wrapping_mul(0x100_0000_01b3);
    }
    hash
}

// Whether this is the text of a sample.
fn is_text(alloc: Global, seed: u64, items: u32, orders: u32, text: &str) -> bool
    requires { IsShop items orders }
{
    match sample_text(alloc, seed, items, orders) {
        Ok(made) => made.as_slice() == text.as_bytes(),
        Err(_) => false,
    }
}

// Whether the text of a sample has so many bytes and this hash.
fn is_hashed(alloc: Global, seed: u64, items: u32, orders: u32, len: usize, sum: u64) -> bool
    requires { IsShop items orders }
{
    match sample_text(alloc, seed, items, orders) {
        Ok(made) => made.len() == len && hash(made.as_slice()) == sum,
        Err(_) => false,
    }
}

#[test]
fn shops(rt: HostRuntime) {
    for (items, orders, may_be) in SHOPS {
        assert!(rt; is_shop(items, orders) == may_be);
    }
}

#[test]
fn small_samples(rt: HostRuntime) {
    assert!(rt; is_text(rt.alloc(), 0, 3, 0, EMPTY));
    assert!(rt; is_text(rt.alloc(), 1, 3, 4, FOUR));
}

// The largest shop, and seeds that differ above 32 bits alone.
#[test]
fn large_samples(rt: HostRuntime) {
    assert!(rt; is_hashed(rt.alloc(), 7, 200, 1000, 101_856, 0xb30b_7203_6424_54c7));
    assert!(rt;
        is_hashed(
            rt.alloc(),
            4_294_967_303,
            200,
            1000,
            101_892,
            0x7e69_fc8c_1549_1977
        )
    );
}
