ghost use Rattle.std.specs.Prelude.{◌≡◌, ◌≤◌, [], IfOk, Some, drop};

use crate::far_end::FarEnd;
use otp_base::{List, Memory, MemorySink, MemorySource, Put, Sink};
use std::alloc::Global;

/// A link that a door in memory gives: the bytes that its peer sends, and how its reads and writes go.
#[derive(Drop)]
pub struct MemoryLink {
    pub sent: List<u8>,
    /// The numbers of the reads that fail, counted from 1.
    pub read_fails: List<u64>,
    /// The numbers of the writes that fail, counted from 1.
    pub write_fails: List<u64>,
    /// The greatest number of bytes of one read or write.
    pub most: usize,
    pub far_end: FarEnd,
    pub ghost some: { 1 ≤ most },
}

impl MemoryLink {
    /// The link's ends on the side of the door: what the peer sends, of which nothing was read yet, and
    /// what the peer is sent, which is nothing yet.
    pub fn open(&self, alloc: Global) -> Result<(MemorySource, MemoryOutput), Memory>
        ensures sent { IfOk result (λ ends. drop ends.0.at ends.0.bytes ≡ self.now.sent) }
        ensures nothing { IfOk result (λ ends. ends.1.sink.bytes ≡ []) }
        ensures none { IfOk result (λ ends. (ends.0.faults ≡ 0) × (ends.1.sink.faults ≡ 0)) }
    {
        let input = MemorySource::new(
            copy_of(alloc, &self.sent)?,
            copy_of(alloc, &self.read_fails)?,
            self.most,
        );
        let write_fails = copy_of(alloc, &self.write_fails)?;
        let output = MemoryOutput {
            sink: MemorySink::new(List::new(alloc), write_fails, self.most),
            far_end: self.far_end.try_clone()?,
        };
        Ok((input, output))
    }
}

/// A copy of the items.
pub fn copy_of<T: Copy>(alloc: Global, items: &List<T>) -> Result<List<T>, Memory>
    ensures { IfOk result (λ copy. copy ≡ items.now) }
{
    Ok(List::from_vec(Vec::from_slice(alloc, items.as_slice())?))
}

/// A sink in memory that hands what it took to the far end of its link where it is dropped.
pub struct MemoryOutput {
    pub sink: MemorySink,
    pub far_end: FarEnd,
}

impl Sink for MemoryOutput {
    ghost contents = { λ s. Some s.sink.bytes };

    ghost faults = { λ s. s.sink.faults };

    fn write(&mut self, piece: &[u8]) -> Put {
        self.sink.write(piece)
    }
}

impl Drop for MemoryOutput {
    fn drop(self) {
        let MemoryOutput { sink, far_end } = self;
        let MemorySink {
            bytes,
            fails: _fails,
            most: _,
            calls: _,
            faults: _,
        } = sink;
        far_end.receive(bytes);
    }
}
