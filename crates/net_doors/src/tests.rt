ghost use Rattle.door_ports.specs.Shares.{IsLeft};

use crate::NetDoors;
use door_ports::{Door, Doors};
use dra_ports::{Conn, PortError, read_all, write_all};
use std::alloc::Global;
use std::io::{self, Read, Write};
use std::net::{Net, Shutdown, SocketAddr, TcpListener, TcpStream};
use std::test::*;

/// A connection that has sent this text, and sends no more.
fn send<R: Net<Listener = TcpListener, Stream = TcpStream>>(
    net: &R,
    address: SocketAddr,
    text: &str,
) -> io::Result<TcpStream> {
    let mut stream = TcpStream::connect(net, address)?;
    stream.write_all(text.as_bytes())?;
    stream.shutdown(Shutdown::Write)?;
    Ok(stream)
}

/// Writes back all that comes by a connection.
fn echo<C: Conn>(alloc: Global, conn: &mut C) -> Result<(), PortError> {
    let bytes = read_all(alloc, conn)?;
    write_all(conn, &bytes)
}

/// Serves the next connection of a door.
fn serve<D: Door>(alloc: Global, door: &mut D) -> Result<u64, PortError>
    requires { IsLeft (D.share door.old) }
{
    let mut accepted = door.accept()?;
    let number = accepted.number();
    let echoed = echo(alloc, accepted.conn());
    door.end(accepted);
    echoed?;
    Ok(number)
}

#[test]
fn a_connection_is_echoed(rt: HostRuntime) -> Result<(), Fail> {
    let alloc = rt.alloc();
    let mut doors = NetDoors::new(&rt, alloc);
    let mut opened = doors.open("127.0.0.1:0", 2, 2)?;
    let mut client = send(&rt, opened[1].address()?, "hello")?;
    assert_eq!(rt; serve(alloc, &mut opened[1])?, 2);
    doors.close(opened);
    let mut reply = Vec::new(alloc);
    client.read_to_end(&mut reply)?;
    assert_eq!(rt; reply.as_slice(), b"hello".as_slice());
    Ok(())
}
