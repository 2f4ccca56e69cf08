//! What the values of members are read as.
ghost use Rattle.std.specs.Prelude.{◌≡◌};
ghost use Rattle.serde_json.specs.View.{view, items_view};
ghost use Rattle.mdcc_config.specs.Readings.{natural, integer, pair_in, pair, host_of, host, fast_limit_named, limit};

use mdcc_option::FastLimit;
use serde_json::Value;
use std::net::Ipv4Addr;

/// A number of 64 bits; none inside where it is negative.
pub(crate) fn natural(value: &Value) -> Option<Option<u64>>
    ensures { result ≡ natural (view value.now) }
{
    match (value.as_u64(), value.as_i64()) {
        (Some(number), _) => Some(Some(number)),
        (None, Some(_)) => Some(None),
        (None, None) => None,
    }
}

// A number of 64 bits; none inside where it is 2^63 or more.
fn integer(value: &Value) -> Option<Option<i64>>
    ensures { result ≡ integer (view value.now) }
{
    match (value.as_i64(), value.as_u64()) {
        (Some(number), _) => Some(Some(number)),
        (None, Some(_)) => Some(None),
        (None, None) => None,
    }
}

// Two such numbers.
fn pair_in(values: &[Value]) -> Option<Option<(i64, i64)>>
    ensures { result ≡ pair_in (items_view values.now) }
{
    match values {
        [low, high] => Some(integer(low)?.zip(integer(high)?)),
        _ => None,
    }
}

/// A list of two numbers of 64 bits; none inside where one is 2^63 or more.
pub(crate) fn pair(value: &Value) -> Option<Option<(i64, i64)>>
    ensures { result ≡ pair (view value.now) }
{
    pair_in(value.as_array()?.as_slice())
}

// The host that a text is in dotted decimal.
fn host_of(text: &str) -> Option<[u8; 4]>
    ensures { result ≡ host_of text.now }
{
    match text.parse::<Ipv4Addr>() {
        Ok(address) => Some(address.octets()),
        Err(_) => None,
    }
}

/// A text; none inside where it is no host.
pub(crate) fn host(value: &Value) -> Option<Option<[u8; 4]>>
    ensures { result ≡ host (view value.now) }
{
    Some(host_of(value.as_str()?))
}

// The fast limit that a text names.
fn limit_of(text: &str) -> Option<FastLimit>
    ensures { result ≡ fast_limit_named text.now }
{
    if text == "safe" {
        return Some(FastLimit::Safe);
    }
    if text == "paper" {
        return Some(FastLimit::Paper);
    }
    None
}

/// A text; none inside where it names no limit.
pub(crate) fn limit(value: &Value) -> Option<Option<FastLimit>>
    ensures { result ≡ limit (view value.now) }
{
    Some(limit_of(value.as_str()?))
}
