ghost use Rattle.std.specs.Prelude.{◌≡◌, codes, option_map};
ghost use Rattle.query_form.specs.Resource.{behind, feed_number, is_within, resource_of, short_number, takes, updates_of};

use http_read::Method;
use otp_base::number_of_bytes;

/// What a path names.
#[derive(Clone, Copy, Debug, PartialEq, Eq)]
pub enum Resource {
    Plan,
    Status,
    /// The updates of the RT feed of this number, which may be one that there isn't.
    Updates(u64),
    Commit,
}

impl Resource {
    /// Whether the RT feed that it speaks of, if any, is one of so many.
    pub fn is_within(self, feeds: u32) -> bool
        ensures { result ≡ is_within feeds self }
    {
        match self {
            Resource::Updates(number) => 1 <= number && number <= u64::from(feeds),
            _ => true,
        }
    }

    /// Whether it is asked for by this method.
    pub fn takes(self, method: Method) -> bool
        ensures { result ≡ takes self method }
    {
        match self {
            Resource::Plan | Resource::Status => matches!(method, Method::Get),
            Resource::Updates(_) | Resource::Commit => matches!(method, Method::Post),
        }
    }
}

/// What a path names, if anything.
pub fn resource_of(path: &str) -> Option<Resource>
    ensures { result ≡ resource_of path.now }
{
    match path {
        "/plan" => Some(Resource::Plan),
        "/status" => Some(Resource::Status),
        "/commit" => Some(Resource::Commit),
        _ => updates_of(path),
    }
}

fn updates_of(path: &str) -> Option<Resource>
    ensures { result ≡ updates_of path.now }
{
    match feed_number(path) {
        Some(number) => Some(Resource::Updates(number)),
        None => None,
    }
}

/// The number N of `/updates/N`, 1 or 2 digits.
fn feed_number(path: &str) -> Option<u64>
    ensures { result ≡ feed_number path.now }
{
    match behind_updates(path) {
        Some(text) => short_number(text),
        None => None,
    }
}

fn short_number(text: &[u8]) -> Option<u64>
    ensures { result ≡ short_number text.now }
{
    if text.len() > 2 {
        return None;
    }
    number_of_bytes(text)
}

fn behind_updates(path: &str) -> Option<&[u8]>
    ensures { option_map (λ s. s.now) result ≡ behind (codes "/updates/") path.now }
{
    path.as_bytes().strip_prefix(b"/updates/")
}
