use plan_json::Body;

/// The reply to a request, before it is bytes.
#[derive(Debug, Drop)]
pub enum Reply {
    /// A status and a body.
    Answer { status: u16, body: Body },
    /// Memory ran out.
    Memory,
}
