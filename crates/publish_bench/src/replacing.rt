//! A writer that replaces a snapshot behind a lock without pause.

use otp_base::Memory;
use snapshot_store::Snapshot;
use std::mem::replace;
use std::sync::atomic::{AtomicU64, Ordering};
use std::sync::{Arc, Mutex, Wait};

/// Replaces the snapshot as long as readers are left, but no more often than so many times, and says how often it did.
pub fn replace_while<R: Wait>(
    rt: &R,
    shared: &Mutex<Arc<Snapshot>>,
    snapshot: &Arc<Snapshot>,
    left: &AtomicU64,
    most: u32,
) -> Result<u32, Memory> {
    for count in 0..most {
        if left.load(Ordering::SeqCst) == 0 {
            return Ok(count);
        }
        let next = Arc::try_clone(snapshot)?;
        let _last = replace(&mut *shared.lock(rt), next);
    }
    Ok(most)
}
