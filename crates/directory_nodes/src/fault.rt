//! The faults of what a call of a directory layer calls itself.

ghost use Rattle.std.specs.Prelude.{◌≡◌};
ghost use Rattle.directory_nodes.specs.Faults.{of_tr, of_allocator, from_tr, from_allocator};

use directory_types::DirFault;
use fdb_calls::TrFault;
use prefix_allocator::AllocFault;

/// Returns what a call of the transaction answered, with the fault of a call of the layer.
pub(crate) fn from_tr<X>(answer: Result<X, TrFault>) -> Result<X, DirFault>
    ensures { result ≡ from_tr answer }
{
    match answer {
        Ok(value) => Ok(value),
        Err(fault) => Err(of_tr(fault)),
    }
}

// The fault of a call whose transaction has this fault.
fn of_tr(fault: TrFault) -> DirFault
    ensures { result ≡ of_tr fault }
{
    match fault {
        TrFault::Code(code) => DirFault::Tr(code),
        TrFault::NoMemory => DirFault::NoMemory,
    }
}

/// Returns what a call of the allocator answered, with the fault of a call of the layer.
pub(crate) fn from_allocator<X>(answer: Result<X, AllocFault>) -> Result<X, DirFault>
    ensures { result ≡ from_allocator answer }
{
    match answer {
        Ok(value) => Ok(value),
        Err(fault) => Err(of_allocator(fault)),
    }
}

// The fault of a call whose allocator has this fault.
fn of_allocator(fault: AllocFault) -> DirFault
    ensures { result ≡ of_allocator fault }
{
    match fault {
        AllocFault::WindowFull { start } => DirFault::WindowFull { start },
        AllocFault::BadCounter { key } => DirFault::BadCounter { key },
        AllocFault::Tr(code) => DirFault::Tr(code),
        AllocFault::NoMemory => DirFault::NoMemory,
    }
}
