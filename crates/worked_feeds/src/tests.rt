use crate::{AFTER_MIDNIGHT, SampleFile, TWO_WAYS, files_of};
use std::test::Fail;

/// A change takes a file's place, and a file without a text isn't there.
#[test]
fn changes_files(rt: HostRuntime) -> Result<(), Fail> {
    let alloc = rt.alloc();
    assert_eq!(rt; files_of(alloc, &TWO_WAYS, &[])?.len(), 6);
    assert_eq!(rt; files_of(alloc, &TWO_WAYS, &AFTER_MIDNIGHT)?.len(), 6);
    let none = SampleFile {
        name: "f/calendar.txt",
        text: "",
    };
    assert_eq!(rt; files_of(alloc, &TWO_WAYS, &[none])?.len(), 5);
    Ok(())
}
