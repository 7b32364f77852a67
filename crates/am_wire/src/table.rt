//! The numbers of a packet: the field, its offset, and how it is read and written
//! (auto_fs.h, `struct autofs_v5_packet`, as it lies on x86-64).

macro_rules! fields {
    ($with:ident $args:tt) => {
        $with!($args;
            proto_version 0 read_u32 write_u32,
            kind 4 read_u32 write_u32,
            token 8 read_u32 write_u32,
            dev 12 read_u32 write_u32,
            ino 16 read_u64 write_u64,
            uid 24 read_u32 write_u32,
            gid 28 read_u32 write_u32,
            pid 32 read_u32 write_u32,
            tgid 36 read_u32 write_u32,
            len 40 read_u32 write_u32,
        )
    };
}

pub(crate) use fields;
