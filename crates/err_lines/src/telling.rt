//! Bytes on err.

ghost use Rattle.std.specs.Prelude.{◌≡◌};
ghost use Rattle.err_lines.specs.Told.{IsWritten};

use outside::{Sink, write_all};

/// Writes these bytes. Where err fails a front of them is written, and nothing else is done of it.
pub fn tell<N: Sink>(err: &mut N, bytes: &[u8])
    ensures { IsWritten bytes.now (N.written err.old) (N.written err.new) (N.faults err.old) (N.faults err.new) }
{
    let _whole = write_all(err, bytes);
}
