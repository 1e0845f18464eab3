//! The names of the faults of a directory layer.

ghost use Rattle.std.specs.Prelude.{◌≡◌, decimal, IfOk};
ghost use Rattle.model_machine.specs.Directories.{fault_name};

use directory_types::DirFault;
use itoa::Buffer;
use key_bytes::Bytes;
use std::alloc::{AllocError, Global};

/// Returns the name of a fault, without what it carries; of a code its digits. It is refused for want of memory
/// alone.
pub fn fault_name(alloc: Global, fault: &DirFault) -> Result<Bytes, AllocError>
    ensures { IfOk result (λ name. name ≡ fault_name fault.now) }
{
    match fault {
        DirFault::EmptyPath => Bytes::from_slice(alloc, b"EmptyPath"),
        DirFault::Exists => Bytes::from_slice(alloc, b"Exists"),
        DirFault::Missing => Bytes::from_slice(alloc, b"Missing"),
        DirFault::LayerDiffers => Bytes::from_slice(alloc, b"LayerDiffers"),
        DirFault::ParentMissing => Bytes::from_slice(alloc, b"ParentMissing"),
        DirFault::IntoItself => Bytes::from_slice(alloc, b"IntoItself"),
        DirFault::ManualNotAllowed => Bytes::from_slice(alloc, b"ManualNotAllowed"),
        DirFault::PrefixInUse => Bytes::from_slice(alloc, b"PrefixInUse"),
        DirFault::KeysAtPrefix => Bytes::from_slice(alloc, b"KeysAtPrefix"),
        DirFault::VersionNewer { .. } => Bytes::from_slice(alloc, b"VersionNewer"),
        DirFault::NoSuccessor => Bytes::from_slice(alloc, b"NoSuccessor"),
        DirFault::BadNode { .. } => Bytes::from_slice(alloc, b"BadNode"),
        DirFault::BadCounter { .. } => Bytes::from_slice(alloc, b"BadCounter"),
        DirFault::WindowFull { .. } => Bytes::from_slice(alloc, b"WindowFull"),
        DirFault::AcrossPartitions => Bytes::from_slice(alloc, b"AcrossPartitions"),
        DirFault::Tr(code) => digits_of(alloc, code.0),
        DirFault::NoMemory => Bytes::from_slice(alloc, b"NoMemory"),
    }
}

/// Returns the digits of a code. It is refused for want of memory alone.
pub fn digits_of(alloc: Global, code: u16) -> Result<Bytes, AllocError>
    ensures { IfOk result (λ digits. digits ≡ decimal code) }
{
    let mut buffer = Buffer::new();
    Bytes::from_slice(alloc, buffer.format(code).as_bytes())
}
