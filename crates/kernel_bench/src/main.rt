//! Each kernel of `lane_kernels` beside its plain loop, over columns of several lengths. With the word `time` it prints for each
//! the nanoseconds that both took for the same number of entries, and how many times as fast the kernel is; with no word it
//! says only that both give the same answers.
#![tactic(auto)]

mod columns;
mod measure;

use std::{env, io};

const LENGTHS: [usize; 4] = [8, 64, 1024, 65_536];

fn main(rt: HostRuntime) -> io::Result<()> {
    // The first word is the name of the program.
    let words = env::args(&rt)?.count();
    for length in LENGTHS {
        if words > 1 {
            measure::time_all(&rt, length)?;
        } else {
            measure::compare_all(&rt, length)?;
        }
    }
    Ok(())
}
