//! What is asked of the system for each connection.
ghost use Rattle.libc.specs.Net.{SockOption};

use libc::net::{
    IPPROTO_TCP, SO_KEEPALIVE, SOL_SOCKET, TCP_KEEPCNT, TCP_KEEPIDLE, TCP_KEEPINTVL,
    TCP_USER_TIMEOUT, setsockopt,
};
use mio::net::TcpStream;
use std::io;
use std::os::fd::AsRawFd;

/// How long the other node may be silent before the system asks after it, in seconds.
const KEEP_ALIVE_SILENCE: i32 = 10;

/// How long the system waits for an answer before it asks again, in seconds.
const KEEP_ALIVE_PACE: i32 = 5;

/// How often it asks before the connection fails.
const KEEP_ALIVE_ASKINGS: i32 = 3;

/// How long what was sent may stay unacknowledged, or what is to be sent find no room there, before
/// the connection fails, in milliseconds.
const UNACKNOWLEDGED_LIMIT: i32 = 30_000;

const _: () = prove!(KEEP_ALIVE_SILENCE == 10);

const _: () = prove!(KEEP_ALIVE_PACE == 5);

const _: () = prove!(KEEP_ALIVE_ASKINGS == 3);

const _: () = prove!(UNACKNOWLEDGED_LIMIT == 30_000);

// What is sent goes out at once (`TCP_NODELAY`), and a node that has gone ends the connection: the
// system asks after one that is silent, and gives up what stays unacknowledged.
pub(crate) fn set_options(stream: &TcpStream) -> io::Result<()> {
    stream.set_nodelay(true)?;
    set_option(stream, SOL_SOCKET, SO_KEEPALIVE, 1)?;
    set_option(stream, IPPROTO_TCP, TCP_KEEPIDLE, KEEP_ALIVE_SILENCE)?;
    set_option(stream, IPPROTO_TCP, TCP_KEEPINTVL, KEEP_ALIVE_PACE)?;
    set_option(stream, IPPROTO_TCP, TCP_KEEPCNT, KEEP_ALIVE_ASKINGS)?;
    set_option(stream, IPPROTO_TCP, TCP_USER_TIMEOUT, UNACKNOWLEDGED_LIMIT)
}

// Sets one option. The kit's sockets have no method for it, so this is the call of C; what it
// requires is proved.
fn set_option(stream: &TcpStream, level: i32, name: i32, value: i32) -> io::Result<()>
    requires { SockOption level name }
{
    let mut octets = [0u8; 16];
    octets[..4].copy_from_slice(&value.to_ne_bytes());
    if unsafe { setsockopt(stream.as_raw_fd(), level, name, &octets, 4) } < 0 {
        return Err(io::Error::from(io::ErrorKind::Other));
    }
    Ok(())
}
