//! Readers and writers, received whole: what stands over the opening of a file.
ghost use Rattle.std.specs.Prelude.{◌≡◌, ◌≤◌, ℕ, IfOk, IfSome, OnOk, OnErr, length, take, vec_len};
ghost use Rattle.std.specs.Io.KnownBytes.{Appends, Keeps};

use crate::WorldErr;
use crate::real_paths::fault;
use std::alloc::Global;
use std::io::{ErrorKind, Read, Write};

/// The most bytes of a file that is read.
pub(crate) const MOST_BYTES: u64 = 1_073_741_824;

/// The bytes that the reader has left, up to where no byte comes, of which `size` are expected.
pub(crate) fn read_whole<R: Read + Drop>(
    alloc: Global,
    reader: R,
    size: u64,
) -> Result<Vec<u8>, WorldErr>
    ensures whole { IfOk result (λ bytes.
        IfSome (R.remaining reader) (λ left. bytes.items ≡ left)) }
    ensures within { IfOk result (λ bytes. vec_len bytes ≤ MOST_BYTES) }
{
    // One more than the file's size, so that its end is found with no further room.
    let mut bytes = Vec::with_capacity(alloc, size.min(MOST_BYTES) as usize + 1)?;
    let mut front = reader.take(MOST_BYTES + 1);
    match front.read_to_end(&mut bytes) {
        Ok(count) if count as u64 <= MOST_BYTES => Ok(bytes),
        Ok(_) => Err(WorldErr::Failed),
        Err(error) => Err(fault(error)),
    }
}

/// Writes all bytes. After an `Err` the writer holds a front of them.
pub(crate) fn write_whole<W: Write>(writer: &mut W, bytes: &[u8]) -> Result<(), WorldErr>
    ensures ok { OnOk result
        (Appends (W.contents writer.old) (W.contents writer.new) bytes.now) }
    ensures err { OnErr result ((count : ℕ)
        × Appends (W.contents writer.old) (W.contents writer.new) (take count bytes.now)) }
{
    let mut done = 0;
    for _turn in 0..u64::MAX {
        if done >= bytes.len() {
            return Ok(());
        }
        match write_some(writer, &bytes[done..]) {
            Ok(count) => done += count,
            Err(error) => return Err(error),
        }
    }
    Err(WorldErr::Failed)
}

/// Writes some of the bytes; of a call that was interrupted, none.
fn write_some<W: Write>(writer: &mut W, bytes: &[u8]) -> Result<usize, WorldErr>
    ensures within { IfOk result (λ count. count ≤ length bytes.now) }
    ensures ok { IfOk result (λ count.
        Appends (W.contents writer.old) (W.contents writer.new) (take count bytes.now)) }
    ensures err { OnErr result (Keeps (W.contents writer.old) (W.contents writer.new)) }
{
    match writer.write(bytes) {
        Ok(count) if count > 0 => Ok(count),
        Ok(_) => Err(WorldErr::Failed),
        Err(error) if error.kind() == ErrorKind::Interrupted => Ok(0),
        Err(error) => Err(fault(error)),
    }
}
