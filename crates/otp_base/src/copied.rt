ghost use Rattle.std.specs.Prelude.{◌≡◌, IfOk, take};

use crate::list::List;
use crate::memory::Memory;
use std::alloc::Global;

/// A value that can be had twice, the second time in memory of its own.
pub trait Copied: Drop {
    /// The same value, in memory of its own.
    fn copy(&self, alloc: Global) -> Result<Self, Memory>
        ensures { IfOk result (λ other. other ≡ self.now) };
}

impl<T: Copied> Copied for Option<T> {
    fn copy(&self, alloc: Global) -> Result<Option<T>, Memory> {
        match self {
            Some(item) => Ok(Some(item.copy(alloc)?)),
            None => Ok(None),
        }
    }
}

impl<T: Copied> Copied for List<T> {
    fn copy(&self, alloc: Global) -> Result<List<T>, Memory> {
        let mut copies = Vec::with_capacity(alloc, self.len())?;
        for item in self.as_slice() {
            copies.push(item.copy(alloc)?)?;
        }
        Ok(List::from_vec(copies))
    }
}
