use otp_base::{Copied, List, Memory};
use std::alloc::{AllocError, Global};
use std::sync::{Arc, OnceLock};

/// The far end of a link in memory: what was written to it, once its output was dropped.
#[derive(Drop)]
pub struct FarEnd {
    received: Arc<OnceLock<List<u8>>>,
}

impl FarEnd {
    /// A far end that has received nothing yet.
    pub fn new(alloc: Global) -> Result<FarEnd, Memory> {
        let received = Arc::new(alloc, OnceLock::new()).map_err(AllocError::from)?;
        Ok(FarEnd { received })
    }

    /// The same far end, held a second time.
    pub fn try_clone(&self) -> Result<FarEnd, Memory> {
        let received = Arc::try_clone(&self.received)?;
        Ok(FarEnd { received })
    }

    /// All that was written to the link. None before its output is dropped.
    pub fn received(&self) -> Option<&List<u8>> {
        self.received.get()
    }

    /// Hands over what was written. Only the first call counts.
    pub fn receive(&self, bytes: List<u8>) {
        let _ = self.received.try_set(bytes);
    }
}
