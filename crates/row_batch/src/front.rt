//! What is before the records of a batch, which is written after them.

ghost use Rattle.std.specs.Prelude.{◌≡◌, ◌≤◌, ◌++◌, length, drop, IfOk, OnOk, OnErr};
ghost use Rattle.row_batch.specs.OpenBatches.{padded};

use batch::{HEADER, MAX_BATCH};
use std::alloc::{AllocError, Global};

/// As many bytes as are before the records of a batch, and room for so many in all.
pub fn blank(alloc: Global, room: usize) -> Result<Vec<u8>, AllocError>
    ensures { IfOk result (λ bytes. length bytes.items ≡ 61) }
{
    let mut bytes = Vec::with_capacity(alloc, room)?;
    bytes.resize(HEADER, 0)?;
    Ok(bytes)
}

/// From this size on the bytes of a batch get room for all that it may have.
const LARGE: usize = 65_536;

/// Takes room for all bytes that a batch may have: of a list that grows by steps holes would stay in memory. Where
/// there is no such room, nothing changes.
#[inline(never)]
fn make_room(bytes: &mut Vec<u8>)
    ensures { bytes.new.items ≡ bytes.old.items }
{
    let _room = bytes.reserve_exact(MAX_BATCH.saturating_sub(bytes.len()));
}

/// Makes the bytes of a batch ready for a row: as many as are before the records, where there are fewer, and room
/// where there are many. It fails only where memory runs out; then nothing changes.
#[inline(always)]
pub fn ready(bytes: &mut Vec<u8>) -> Result<(), AllocError>
    ensures ok { OnOk result (bytes.new.items ≡ padded bytes.old.items) }
    ensures err { OnErr result (bytes.new.items ≡ bytes.old.items) }
{
    if bytes.len() < HEADER {
        bytes.resize(HEADER, 0)?;
    } else if bytes.len() > LARGE && bytes.capacity() < MAX_BATCH {
        make_room(bytes);
    }
    Ok(())
}

/// Writes over the first bytes.
fn put_front(front: &[u8], out: &mut [u8])
    requires { length front.now ≤ length out.old }
    ensures { out.new ≡ front.now ++ drop (length front.now) out.old }
{
    out[..front.len()].copy_from_slice(front);
}

/// The bytes, of which the first are these.
pub fn with_front(front: &[u8], mut out: Vec<u8>) -> Vec<u8>
    requires { length front.now ≤ length out.items }
    ensures { result.items ≡ front.now ++ drop (length front.now) out.items }
{
    put_front(front, &mut out);
    out
}
