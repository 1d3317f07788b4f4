//! Reads a message of two megabytes. With a word it reads and copies it many times, and prints how many
//! bytes a second both took in; without one it says what it read.
#![tactic(auto)]

use rt_reader::read_message;
use std::alloc::Global;
use std::env;
use std::time::{Duration, Instant};

/// A header with version 2.0.
const HEADER: [u8; 7] = [0x0A, 0x05, 0x0A, 0x03, 0x32, 0x2E, 0x30];

/// The arrival of trip T1 on 20240506 at sequence 2 is delayed by 61 seconds.
const ENTITY: [u8; 31] = [
    0x12, 0x1D, 0x0A, 0x01, 0x31, 0x1A, 0x18, 0x0A, 0x0E, 0x0A, 0x02, 0x54, 0x31, 0x1A, 0x08, 0x32,
    0x30, 0x32, 0x34, 0x30, 0x35, 0x30, 0x36, 0x12, 0x06, 0x08, 0x02, 0x12, 0x02, 0x08, 0x3D,
];

/// How often the message is read and copied.
const TURNS: u64 = 20;

/// A header, and so many entities.
fn sample(alloc: Global, entities: usize) -> anyhow::Result<Vec<u8>> {
    let mut bytes = Vec::new(alloc);
    bytes.extend_from_slice(&HEADER)?;
    for _ in 0..entities {
        bytes.extend_from_slice(&ENTITY)?;
    }
    Ok(bytes)
}

/// How many entities the message has; none where it isn't read.
fn entities(alloc: Global, bytes: &[u8]) -> usize {
    match read_message(alloc, bytes) {
        Ok(message) => message.entities.len(),
        Err(_) => 0,
    }
}

/// Bytes a second, where this many bytes took this long.
fn rate(bytes: usize, took: Duration) -> u128 {
    let nanoseconds = took.as_nanos().max(1);
    (bytes as u128) * 1_000_000_000 * (TURNS as u128) / nanoseconds
}

fn main(rt: HostRuntime) -> anyhow::Result<()> {
    let alloc = rt.alloc();
    let bytes = sample(alloc, 65_000)?;
    if env::args(&rt)?.nth(1).is_none() {
        let count = entities(alloc, &bytes);
        println!(rt; "{} bytes, {count} entities", bytes.len())?;
        return Ok(());
    }
    let start = Instant::now(&rt)?;
    let mut count = 0usize;
    for _ in 0..TURNS {
        count = count.wrapping_add(entities(alloc, &bytes));
    }
    let read = rate(bytes.len(), start.elapsed(&rt)?);
    let start = Instant::now(&rt)?;
    let mut len = 0usize;
    for _ in 0..TURNS {
        len = len.wrapping_add(bytes.as_slice().to_vec(alloc)?.len());
    }
    let copied = rate(bytes.len(), start.elapsed(&rt)?);
    println!(rt; "read {read} copied {copied} entities {count} bytes {len}")?;
    Ok(())
}
