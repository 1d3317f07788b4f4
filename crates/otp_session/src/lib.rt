//! Sessions over one world: a desk under its lock, and for each connection a pass that takes views of what is published.
//!
//! A plan and a status are answered from a view, without the lock. An update and a commit are carried out on the desk that is lent.
//! Each connection is a transcript of such steps, and what a session knows of the history only grows.
#![tactic(auto)]

mod answering;
mod base;
mod changing;
mod closing;
mod desks;
mod job;
mod lent;
mod naming;
mod opening;
mod requests;
mod said;
mod serving;
mod session;

pub use answering::answer;
pub use base::Ground;
pub use changing::{Changed, change};
pub use closing::close_world;
pub use desks::{DeskAt, LoneDesk};
pub use job::{Unhindered, serve_ports};
pub use naming::{LockedDesk, Named, World};
pub use opening::{Opened, open_world};
pub use requests::serve_connection;
pub use serving::serve_request;
pub use session::Session;
