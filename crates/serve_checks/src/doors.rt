use link_doors::{FarEnd, MemoryDoor, MemoryLink};
use otp_base::{Accepted, Door, Got, List, ListenFault, Port, Source, put_all};
use std::alloc::Global;
use std::test::Fail;

/// A link whose peer sends these bytes, of which a read or write moves at most three.
pub fn link(alloc: Global, sent: &[u8], far_end: &FarEnd) -> Result<MemoryLink, Fail> {
    Ok(MemoryLink {
        sent: List::from_vec(Vec::from_slice(alloc, sent)?),
        read_fails: List::new(alloc),
        write_fails: List::new(alloc),
        most: 3,
        far_end: far_end.try_clone()?,
    })
}

/// A list of numbers.
fn numbers(alloc: Global, numbers: &[u64]) -> Result<List<u64>, Fail> {
    Ok(List::from_vec(Vec::from_slice(alloc, numbers)?))
}

#[test]
fn gives_links(rt: HostRuntime) -> Result<(), Fail> {
    let alloc = rt.alloc();
    let far_end = FarEnd::new(alloc)?;
    let mut links = List::new(alloc);
    links.push(link(alloc, b"hello", &far_end)?)?;
    let mut port_fails = List::new(alloc);
    port_fails.push(numbers(alloc, &[1])?)?;
    let mut door = MemoryDoor::new(alloc, links, numbers(alloc, &[1])?, port_fails)?;
    assert!(rt; matches!(door.listen(alloc, 80, 9, 1), Err(ListenFault::Failed)));
    let Ok(mut ports) = door.listen(alloc, 80, 9, 1) else {
        return Err(Fail::new("the door doesn't listen"));
    };
    let Some(port) = ports.get_mut(0) else {
        return Err(Fail::new("the door has no port"));
    };
    assert!(rt; matches!(port.accept(), Accepted::Failed));
    let Accepted::Link {
        mut input,
        mut output,
    } = port.accept()
    else {
        return Err(Fail::new("the port gives no link"));
    };
    let mut room = [0u8; 4];
    assert_eq!(rt; input.read(&mut room), Got::Bytes(3));
    assert_eq!(rt; room.as_slice(), b"hel\0".as_slice());
    assert_eq!(rt; put_all(&mut output, b"reply"), Ok(()));
    assert!(rt; far_end.received().is_none());
    drop(output);
    match far_end.received() {
        Some(bytes) => assert_eq!(rt; bytes.as_slice(), b"reply".as_slice()),
        None => return Err(Fail::new("nothing was received")),
    }
    assert!(rt; matches!(port.accept(), Accepted::Closed));
    door.close(ports);
    Ok(())
}
