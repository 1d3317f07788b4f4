use crate::stop::Stop;
use otp_base::{Folder, read_file};
use std::alloc::Global;

/// The most bytes of the status of a process.
const MOST_BYTES: u64 = 65_536;

/// The most kilobytes of memory that this process held, or 0 where the machine doesn't tell.
pub fn held<F: Folder>(alloc: Global, folder: &mut F) -> Result<u64, Stop> {
    let Ok(status) = read_file(alloc, folder, "/proc/self/status", MOST_BYTES) else {
        return Ok(0);
    };
    let Ok(text) = std::str::from_utf8(status.as_slice()) else {
        return Ok(0);
    };
    for line in text.lines() {
        if let Some(rest) = line.strip_prefix("VmHWM:") {
            return Ok(kilobytes(rest));
        }
    }
    Ok(0)
}

fn kilobytes(text: &str) -> u64 {
    let Some(number) = text.trim().strip_suffix(" kB") else {
        return 0;
    };
    number.parse::<u64>().unwrap_or(0)
}
