//! What sockets are told and what they answer.
ghost use Rattle.std.specs.Prelude.{◌≡◌};
ghost use Rattle.std.specs.IoError.{error_kind, raw_os_error};
ghost use Rattle.mdcc_link.specs.Sockets.{IsSocketAddress, has_no_buffers, is_quiet, is_quiet_kind, is_second, received_found, served_by};

use crate::Received;
use mdcc_base::{Address, Failed};
use std::io;
use std::io::{Error, ErrorKind};
use std::net::{IpAddr, Ipv4Addr, SocketAddr, UdpSocket};
use std::os::fd::AsRawFd;

/// The address as std has it.
pub fn socket_address(address: Address) -> SocketAddr
    ensures { IsSocketAddress address result }
{
    let host = Ipv4Addr::from_octets(address.host);
    SocketAddr::new(IpAddr::V4(host), address.port)
}

// Linux's number of the error that the system has no buffers left.
const ENOBUFS: i32 = 105;

// Whether an error of this kind is no fault of a receive.
fn is_quiet_kind(kind: ErrorKind) -> bool
    ensures { result ≡ is_quiet_kind kind }
{
    matches!(
        kind,
        ErrorKind::WouldBlock
            | ErrorKind::TimedOut
            | ErrorKind::Interrupted
            | ErrorKind::ConnectionRefused
            | ErrorKind::OutOfMemory
    )
}

// Whether the number of an error says that the system has no buffers left.
fn has_no_buffers(number: Option<i32>) -> bool
    ensures { result ≡ has_no_buffers number }
{
    match number {
        Some(code) => code == ENOBUFS,
        None => false,
    }
}

// Whether a receive that ended so brought nothing, and is no fault.
fn is_quiet(error: &Error) -> bool
    ensures { result ≡ is_quiet error.now }
{
    is_quiet_kind(error.kind()) || has_no_buffers(error.raw_os_error())
}

/// The same socket under a number above those of the standard streams: where one of these is closed, a new socket takes its number, and
/// what is printed would go there.
pub fn above_streams(socket: UdpSocket) -> io::Result<UdpSocket> {
    if socket.as_raw_fd() > 2 {
        return Ok(socket);
    }
    socket.try_clone()
}

/// What was found by a receive that ended so. Else it failed.
pub fn found(ended: Result<(usize, SocketAddr), Error>) -> Option<Received>
    ensures { result ≡ received_found ended }
{
    match ended {
        Ok((count, _)) => Some(Received::Got(count)),
        Err(error) => {
            if is_quiet(&error) {
                Some(Received::Nothing)
            } else {
                None
            }
        }
    }
}

/// The endpoint at which a receive brought a datagram.
pub fn served_by(at: u8, answer: &Result<Received, Failed>) -> Option<u8>
    ensures { result ≡ served_by at answer.now }
{
    match answer {
        Ok(Received::Got(_)) => Some(at),
        _ => None,
    }
}

/// Whether this is a client's endpoint, and the receive just before was at the centre's own.
pub fn is_second(before: Option<u8>, at: u8) -> bool
    ensures { result ≡ is_second before at }
{
    match before {
        Some(own) => u16::from(at) == u16::from(own) + 16,
        None => false,
    }
}
