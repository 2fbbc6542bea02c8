ghost use Rattle.std.specs.Prelude.{◌≡◌, ◌<◌, length, true};

use console_link::{
    Accepted, Link, LinkAt, LinkCall, LinkGot, LinkTook, MemoryLink, MioLink, Peer,
};
use ctss_types::NoMemory;
use std::alloc::Global;
use std::io::{Read, Write};
use std::net;
use std::net::{Ipv4Addr, Net};
use std::process::Abort;
use std::test::Fail;

/// A peer that sends these two pieces and ends.
fn peer_of(alloc: Global, sends: [&[u8]; 2]) -> Result<Peer, NoMemory> {
    let mut pieces = Vec::new(alloc);
    for piece in sends {
        pieces.push(piece.to_vec(alloc)?)?;
    }
    Ok(Peer { pieces, ends: true })
}

/// A link with one such peer, of which these calls fail or are not ready, with room for so many calls and for 8 bytes that are sent.
fn link_of(
    alloc: Global,
    sends: [&[u8]; 2],
    fails: &[LinkAt],
    not_ready: &[LinkAt],
    calls: u64,
) -> Result<MemoryLink, NoMemory> {
    let peers = [peer_of(alloc, sends)?];
    MemoryLink::new(alloc, &peers, fails, not_ready, calls, 8)
}

/// The next connection.
fn accepted<L: Link>(rt: &impl Abort, link: &mut L) -> u32
    ensures { (L.seen link.new).is_open result ≡ true }
{
    let Accepted::New(id) = link.accept() else {
        panic!(rt; "no connection")
    };
    id
}

/// Whether a read gives so many bytes, and the buffer is this then.
fn gives<L: Link>(
    link: &mut L,
    id: u32,
    buffer: &mut [u8; 3],
    count: usize,
    bytes: &[u8; 3],
) -> bool
    requires open { (L.seen link.old).is_open id ≡ true }
    ensures open { (L.seen link.new).is_open id ≡ true }
{
    link.read(id, buffer) == LinkGot::Bytes(count) && &*buffer == bytes
}

/// Tries what a peer gives that sends `login` and then an LF.
fn gives_pieces<L: Link>(rt: &impl Abort, link: &mut L) {
    assert!(rt; link.open(7094).is_ok());
    let id = accepted(rt, link);
    let mut buffer = [0u8; 3];
    assert!(rt; gives(link, id, &mut buffer, 3, b"log"));
    assert!(rt; gives(link, id, &mut buffer, 2, b"ing"));
}

#[test]
fn memory_gives_pieces(rt: HostRuntime) -> Result<(), Fail> {
    let mut link = link_of(rt.alloc(), [b"login", b"\n"], &[], &[], 10)?;
    gives_pieces(&rt, &mut link);
    Ok(())
}

/// Tries a link whose second wait fails, whose first accept is not ready, and that takes 8 bytes.
fn fails_and_waits<L: Link>(rt: &impl Abort, link: &mut L) {
    assert!(rt; link.wait(10).is_ok());
    assert!(rt; link.wait(10).is_err());
    assert!(rt; link.accept() == Accepted::NotYet);
    let id = accepted(rt, link);
    assert!(rt; link.write(id, b"12345") == LinkTook::Bytes(5));
    assert!(rt; link.write(id, b"6789") == LinkTook::Failed);
    link.close(id);
}

#[test]
fn memory_fails_and_waits(rt: HostRuntime) -> Result<(), Fail> {
    let wait = LinkAt {
        call: LinkCall::Wait,
        number: 2,
    };
    let accept = LinkAt {
        call: LinkCall::Accept,
        number: 1,
    };
    let mut link = link_of(rt.alloc(), [b"A", b"B"], &[wait], &[accept], 0)?;
    fails_and_waits(&rt, &mut link);
    Ok(())
}

/// The port at which a link listens from now on.
pub(crate) fn opened<R: Net>(rt: &impl Abort, link: &mut MioLink<'_, R>) -> u16 {
    assert!(rt; link.open(0).is_ok());
    let Some(port) = link.port() else {
        panic!(rt; "no port")
    };
    port
}

/// The next connection, after a wait.
fn arrived<L: Link>(rt: &impl Abort, link: &mut L) -> u32
    ensures { (L.seen link.new).is_open result ≡ true }
{
    assert!(rt; link.wait(1000).is_ok());
    accepted(rt, link)
}

/// Tries that a read after a wait gives this text as a whole.
fn hears<L: Link>(rt: &impl Abort, link: &mut L, id: u32, text: &[u8])
    requires open { (L.seen link.old).is_open id ≡ true }
    ensures open { (L.seen link.new).is_open id ≡ true }
{
    assert!(rt; link.wait(1000).is_ok());
    let mut buffer = [0u8; 64];
    let got = link.read(id, &mut buffer);
    assert!(rt; got == LinkGot::Bytes(text.len()));
    assert!(rt; buffer.starts_with(text));
}

/// Tries that a link takes this text as a whole.
fn says<L: Link>(rt: &impl Abort, link: &mut L, id: u32, text: &[u8])
    requires open { (L.seen link.old).is_open id ≡ true }
    requires some { 0 < length text.now }
{
    assert!(rt; link.write(id, text) == LinkTook::Bytes(text.len()));
}

/// Tries that a client gets this text as a whole.
pub(crate) fn gets<S: Read>(rt: &impl Abort, client: &mut S, text: &[u8]) -> Result<(), Fail> {
    let mut got = [0u8; 64];
    assert!(rt; client.read(&mut got)? == text.len());
    assert!(rt; got.starts_with(text));
    Ok(())
}

/// Tries a line of a client, and an answer to it.
fn carries_both_ways<L: Link, S: Read + Write>(
    rt: &impl Abort,
    link: &mut L,
    client: &mut S,
) -> Result<(), Fail> {
    let id = arrived(rt, link);
    client.write_all(b"login alfa\r\n")?;
    hears(rt, link, id, b"login alfa\r\n");
    says(rt, link, id, b"PASSWORD\r\n");
    gets(rt, client, b"PASSWORD\r\n")
}

#[test]
fn sockets_carry_both_ways(rt: HostRuntime) -> Result<(), Fail> {
    let mut link = MioLink::new(rt.alloc(), &rt)?;
    let port = opened(&rt, &mut link);
    let mut client = net::TcpStream::connect(&rt, (Ipv4Addr::LOCALHOST, port))?;
    carries_both_ways(&rt, &mut link, &mut client)
}

/// Tries a connection that is over, behind which no other one waits.
fn ends<L: Link>(rt: &impl Abort, link: &mut L) {
    let id = arrived(rt, link);
    let mut buffer = [0u8; 16];
    assert!(rt; link.read(id, &mut buffer) == LinkGot::End);
    link.close(id);
    assert!(rt; link.accept() == Accepted::NotYet);
}

#[test]
fn sockets_see_an_end(rt: HostRuntime) -> Result<(), Fail> {
    let mut link = MioLink::new(rt.alloc(), &rt)?;
    let port = opened(&rt, &mut link);
    let client = net::TcpStream::connect(&rt, (Ipv4Addr::LOCALHOST, port))?;
    drop(client);
    ends(&rt, &mut link);
    Ok(())
}
