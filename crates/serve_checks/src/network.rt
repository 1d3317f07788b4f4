use link_doors::TcpDoor;
use otp_base::{Accepted, Door, Got, Port, Source, put_all};
use std::io::{Read, Write};
use std::net::{SocketAddr, TcpStream};
use std::test::Fail;

#[test]
fn talks_on_the_loopback(rt: HostRuntime) -> Result<(), Fail> {
    let here = [127, 0, 0, 1];
    let mut door = TcpDoor::new(&rt, here);
    let Ok(mut ports) = door.listen(rt.alloc(), 0, 1, 1) else {
        return Err(Fail::new("the door doesn't listen"));
    };
    let Some(port) = ports.get_mut(0) else {
        return Err(Fail::new("the door has no port"));
    };
    let mut peer = TcpStream::connect(&rt, SocketAddr::from((here, port.number()?)))?;
    peer.write_all(b"ping")?;
    let Accepted::Link {
        mut input,
        mut output,
    } = port.accept()
    else {
        return Err(Fail::new("the port gives no link"));
    };
    let mut room = [0u8; 8];
    assert_eq!(rt; input.read(&mut room), Got::Bytes(4));
    assert_eq!(rt; &room[..4], b"ping".as_slice());
    assert_eq!(rt; put_all(&mut output, b"pong"), Ok(()));
    let mut reply = [0u8; 4];
    peer.read_exact(&mut reply)?;
    assert_eq!(rt; reply.as_slice(), b"pong".as_slice());
    assert!(rt; matches!(port.accept(), Accepted::Closed));
    door.close(ports);
    Ok(())
}
