ghost use Rattle.std.specs.Prelude.{◌≡◌, ℕ, Bool, List, IfOk};
ghost use Rattle.http_read.specs.declared.request.HttpRequest.{HttpRequest};
ghost use Rattle.http_read.specs.declared.request.HeadFault.{HeadFault};
ghost use Rattle.link_stream.specs.declared.service.Replied.{Replied};

use http_read::{HeadFault, HttpRequest};
use otp_base::{List, Memory};
use std::alloc::Global;
use std::sync::Wait;

/// The reply to a request.
#[derive(Debug, Drop)]
pub enum Replied {
    /// These bytes. The connection closes after them where the reply says so, but for the last of a call,
    /// which says so only for another cause than being the last.
    Bytes { bytes: List<u8>, closes: bool },
    /// Memory ran out.
    Memory,
}

/// What serves requests, over a state that connections share and one of the connection's own, its session.
pub trait Service<D, S> {
    /// The states that it serves over.
    ghost fits: { Self → D → S → Type 0 };

    /// Whether a request may get a reply, as the last of a call or not, from and to these states.
    ghost answers: { Self → HttpRequest → Bool → Replied → D → S → D → S → Type 0 };

    /// The bytes of the reply to a head that is refused.
    ghost refusal: { HeadFault → List ℕ };

    /// The bytes of the reply where memory ran out.
    ghost no_memory: { List ℕ };

    /// Serves a request. It is told whether it is the last of a call.
    fn reply<R: Wait>(
        &self,
        rt: &R,
        alloc: Global,
        shared: &mut D,
        session: &mut S,
        request: &HttpRequest,
        last: bool,
    ) -> Replied
        requires { fits self.now shared.old session.old }
        ensures fits { fits self.now shared.new session.new }
        ensures answers { answers self.now request.now last result shared.old session.old shared.new session.new };

    /// The reply to a head that is refused.
    fn refuse(&self, alloc: Global, fault: HeadFault) -> Result<List<u8>, Memory>
        ensures { IfOk result (λ bytes. bytes ≡ refusal fault) };

    /// The reply where memory ran out. It takes none.
    fn memory_reply(&self) -> &[u8]
        ensures { result.now ≡ no_memory };
}
