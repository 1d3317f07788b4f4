use crate::{
    DiskFolder, FileEntry, FileFault, FileGot, Folder, Got, List, MemoryFolder, MemorySink,
    MemorySource, Sink, Source, StdSink, StdSource, SteadyFolder, SteadySink, SteadySource, Text,
    WriteFault, push_some, put_all, read_file,
};
use std::alloc::Global;
use std::test::Fail;

fn files(alloc: Global, bytes: &[u8]) -> Result<List<FileEntry>, Fail> {
    let name = Text::from_str(alloc, "a.txt")?;
    let bytes = List::from_vec(Vec::from_slice(alloc, bytes)?);
    let mut files = List::new(alloc);
    files.push(FileEntry { name, bytes })?;
    Ok(files)
}

fn numbers(alloc: Global, numbers: &[u64]) -> Result<List<u64>, Fail> {
    Ok(List::from_vec(Vec::from_slice(alloc, numbers)?))
}

#[test]
fn reads_a_file(rt: HostRuntime) -> Result<(), Fail> {
    let alloc = rt.alloc();
    let mut folder = MemoryFolder::new(files(alloc, b"hello")?, numbers(alloc, &[])?);
    match read_file(alloc, &mut folder, "a.txt", 5) {
        Ok(bytes) => assert_eq!(rt; bytes.as_slice(), b"hello".as_slice()),
        Err(_) => assert!(rt; false),
    }
    let mut steady = SteadyFolder {
        files: files(alloc, b"hello")?,
    };
    for (name, limit, fault) in [
        ("a.txt", 4, FileFault::TooLarge),
        ("b.txt", 4, FileFault::Missing),
    ] {
        match read_file(alloc, &mut steady, name, limit) {
            Ok(_) => assert!(rt; false),
            Err(found) => assert_eq!(rt; found, fault),
        }
    }
    Ok(())
}

#[test]
fn fails_by_plan(rt: HostRuntime) -> Result<(), Fail> {
    let alloc = rt.alloc();
    let mut folder = MemoryFolder::new(files(alloc, b"hello")?, numbers(alloc, &[2])?);
    match read_file(alloc, &mut folder, "a.txt", 9) {
        Ok(_) => assert!(rt; false),
        Err(found) => assert_eq!(rt; found, FileFault::ReadFault),
    }
    assert_eq!(rt; folder.faults, 1);
    Ok(())
}

#[test]
fn puts_all(rt: HostRuntime) -> Result<(), Fail> {
    let alloc = rt.alloc();
    let mut sink = MemorySink::new(List::new(alloc), numbers(alloc, &[5])?, 2);
    assert_eq!(rt; put_all(&mut sink, b"hello"), Ok(()));
    assert_eq!(rt; sink.bytes.as_slice(), b"hello".as_slice());
    assert_eq!(rt; put_all(&mut sink, b"more"), Err(WriteFault));
    assert_eq!(rt; sink.bytes.as_slice(), b"hellomo".as_slice());
    assert_eq!(rt; put_all(&mut SteadySink, b"more"), Ok(()));
    Ok(())
}

#[test]
fn gives_bytes(rt: HostRuntime) -> Result<(), Fail> {
    let alloc = rt.alloc();
    let bytes = List::from_vec(Vec::from_slice(alloc, b"hello")?);
    let mut source = MemorySource::new(bytes, numbers(alloc, &[2])?, 3);
    let mut room = [0u8; 4];
    assert_eq!(rt; source.read(&mut room), Got::Bytes(3));
    assert_eq!(rt; room.as_slice(), b"hel\0".as_slice());
    assert_eq!(rt; source.read(&mut room), Got::Failed);
    assert_eq!(rt; source.faults, 1);
    assert_eq!(rt; source.read(&mut room), Got::Bytes(2));
    assert_eq!(rt; room.as_slice(), b"lol\0".as_slice());
    assert_eq!(rt; source.read(&mut room), Got::End);
    let bytes = List::from_vec(Vec::from_slice(alloc, b"more")?);
    let mut steady = SteadySource::new(bytes);
    assert_eq!(rt; steady.read(&mut room), Got::Bytes(4));
    assert_eq!(rt; room.as_slice(), b"more".as_slice());
    assert_eq!(rt; steady.read(&mut room), Got::End);
    let mut reader = StdSource {
        reader: b"to".as_slice(),
        faults: 0,
    };
    assert_eq!(rt; reader.read(&mut room), Got::Bytes(2));
    assert_eq!(rt; room.as_slice(), b"tore".as_slice());
    assert_eq!(rt; reader.read(&mut room), Got::End);
    assert_eq!(rt; reader.faults, 0);
    Ok(())
}

#[test]
fn reaches_the_machine(rt: HostRuntime) -> Result<(), Fail> {
    let mut out = StdSink {
        writer: std::io::writer(&rt),
        faults: 0,
    };
    assert_eq!(rt; put_all(&mut out, b""), Ok(()));
    let mut disk = DiskFolder { rt, faults: 0 };
    let mut buffer = [0u8; 8];
    assert_eq!(rt;
        disk.read("no such folder/a.txt", 0, &mut buffer),
        FileGot::Missing
    );
    assert_eq!(rt; disk.faults, 0);
    assert_eq!(rt; disk.read(".", 0, &mut buffer), FileGot::Failed);
    assert_eq!(rt; disk.faults, 1);
    Ok(())
}

#[test]
fn adds_what_an_option_holds(rt: HostRuntime) -> Result<(), Fail> {
    let mut list = Vec::new(rt.alloc());
    push_some(&mut list, Some(7))?;
    push_some(&mut list, None)?;
    assert_eq!(rt; list.as_slice(), [7].as_slice());
    Ok(())
}
