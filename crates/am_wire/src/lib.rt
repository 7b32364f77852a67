//! The packet of the autofs protocol, version 5, as bytes, and the requests that answer it.
//! Reading and writing take no memory.
#![tactic(auto)]

pub mod fault;
mod head;
pub mod packet;
pub mod packet_name;
pub mod packet_type;
pub mod reading;
pub mod request;
mod table;
pub mod writing;

pub use fault::WireFault;
pub use packet::{Packet, PacketRef};
pub use packet_name::PacketName;
pub use packet_type::PacketType;
pub use reading::read;
pub use request::Request;
pub use writing::{is_writable, write};
