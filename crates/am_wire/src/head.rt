//! The numbers of a packet.

/// The numbers of a packet, as they stand in its bytes.
#[derive(Clone, Copy)]
pub struct Head {
    pub proto_version: u32,
    pub kind: u32,
    pub token: u32,
    pub dev: u32,
    pub ino: u64,
    pub uid: u32,
    pub gid: u32,
    pub pid: u32,
    pub tgid: u32,
    pub len: u32,
}
