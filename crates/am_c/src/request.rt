//! The requests of a daemon, as ioctl(2) takes them.

ghost use Rattle.std.specs.Prelude.{◌≡◌};
ghost use Rattle.am_c.specs.Requests.{request_number};

/// The number by which ioctl(2) takes a request: 1 AUTOFS_IOC_READY, 2 AUTOFS_IOC_FAIL, 3
/// AUTOFS_IOC_CATATONIC, 4 AUTOFS_IOC_SETTIMEOUT, 5 AUTOFS_IOC_EXPIRE_MULTI, 6
/// AUTOFS_DEV_IOCTL_SETPIPEFD; 0 for another.
#[unsafe(no_mangle)]
pub extern "C" fn am_request_number(request: u32) -> u32
    ensures { result ≡ request_number request }
{
    match request {
        1 => 0x9360,
        2 => 0x9361,
        3 => 0x9362,
        4 => 0xc008_9364,
        5 => 0x4004_9366,
        6 => 0xc018_9378,
        _ => 0,
    }
}
