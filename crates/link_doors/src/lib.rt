//! Doors whose ports give links to peers, in memory and on the network.
//!
//! When a door listens it shares its links out among its ports, as evenly as can be, so each port ends by
//! itself. The door in memory tells how many links it has left; what its links wrote is read at their far
//! ends. The door on the network tells nothing.
#![tactic(auto)]

mod far_end;
mod memory_door;
mod memory_link;
mod memory_port;
mod share;
mod tcp_door;
mod tcp_link;
mod tcp_port;

pub use far_end::FarEnd;
pub use memory_door::MemoryDoor;
pub use memory_link::{MemoryLink, MemoryOutput};
pub use memory_port::MemoryPort;
pub use tcp_door::TcpDoor;
pub use tcp_link::{TcpInput, TcpOutput};
pub use tcp_port::TcpPort;
