//! Columns of numbers drawn from a seed.
ghost use Rattle.std.specs.Prelude.{◌≡◌, ◌<◌, ◌≤◌, ◌^◌, IfOk};
ghost use Rattle.std.specs.List.{All};
ghost use Rattle.std.specs.Vec.{vec_len};
ghost use Rattle.lane_kernels.specs.Columns.{IsCoordinate};

use std::alloc::{AllocError, Global};

/// `count` numbers from 0 up to, and without, `spread`.
pub fn numbers(alloc: Global, count: usize, seed: u64, spread: u64) -> Result<Vec<i64>, AllocError>
    requires { (0 < spread) × (spread ≤ 2 ^ 40) }
    ensures { IfOk result (λ v. (vec_len v ≡ count) × All IsCoordinate v.items) }
{
    let mut state = seed;
    let mut column = Vec::new(alloc);
    for _ in 0..count {
        state = state
            .wrapping_mul(6_364_136_223_846_793_005)
            .wrapping_add(1_442_695_040_888_963_407);
        column.push(below(state >> 20, spread))?;
    }
    Ok(column)
}

/// `count` marks, none set.
pub fn marks(alloc: Global, count: usize) -> Result<Vec<bool>, AllocError>
    ensures { IfOk result (λ v. vec_len v ≡ count) }
{
    let mut marks = Vec::new(alloc);
    for _ in 0..count {
        marks.push(false)?;
    }
    Ok(marks)
}

fn below(drawn: u64, spread: u64) -> i64
    requires { (0 < spread) × (spread ≤ 2 ^ 40) }
    ensures { IsCoordinate result }
{
    (drawn % spread) as i64
}
