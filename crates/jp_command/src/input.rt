//! Reading an input to its end.

ghost use Rattle.std.specs.Prelude.{◌≡◌, ◌≤◌, ◌+◌, IfOk, IfErr, OnErr, OnOk, drop, take, true, vec_len};
ghost use Rattle.std.specs.Prelude.{[]};
ghost use Rattle.std.specs.Io.KnownBytes.{ReadConsumes};
ghost use Rattle.jp_command.specs.Input.{ReadsAll};
ghost use Rattle.jp_command.specs.Limits.{chunk_size, document_limit};
ghost use Rattle.jp_command.specs.Reads.{bytes_moved};
ghost use Rattle.jp_command.specs.Stops.{StopsReading};

use crate::device::{Failed, Source};
use crate::fault::Fault;
use crate::limits::{CHUNK_SIZE, DOCUMENT_LIMIT};
use std::alloc::{AllocError, Global};

/// A buffer that has room for one read, of at most 65,536 bytes. The only error is that memory ran
/// out.
pub fn chunk_buffer(alloc: Global) -> Result<Vec<u8>, AllocError>
    ensures { IfOk result (λ chunk. vec_len chunk ≡ chunk_size) }
{
    vec![in alloc; 0; CHUNK_SIZE]
}

/// Reads `input` to its end, which the first read without a byte tells. `DocumentTooLarge` at the
/// read by which more than `DOCUMENT_LIMIT` bytes have come, `Read` at the first read that fails, `NoMemory` where
/// memory ran out.
pub fn read_all<R: Source>(alloc: Global, input: &mut R) -> Result<Vec<u8>, Fault>
    ensures ok { IfOk result (λ bytes.
        ReadsAll R.remaining R.has_failed R.read_gives input.old input.new bytes.items) }
    ensures stopped { IfErr result
        (StopsReading R.remaining R.has_failed R.read_gives input.old input.new) }
{
    let mut bytes = room_for(alloc, input.size_told());
    let mut count = 0;
    'chunks: loop {
        make_room(&mut bytes, count)?;
        let Ok(more) = read_behind(input, &mut bytes, count) else {
            return Err(Fault::Read);
        };
        if more == 0 {
            bytes.truncate(count);
            return Ok(bytes);
        }
        if more > DOCUMENT_LIMIT - count {
            return Err(Fault::DocumentTooLarge);
        }
        count += more;
    }
}

/// No bytes, with room for an input that says that it has so many, and for one read more. Where there is no
/// memory for that, room is taken as bytes come.
fn room_for(alloc: Global, size: usize) -> Vec<u8>
    ensures { result.items ≡ [] }
{
    let mut bytes = Vec::new(alloc);
    if size > 0 {
        let _ = bytes.reserve_exact(size.min(DOCUMENT_LIMIT) + CHUNK_SIZE);
    }
    bytes
}

/// Room for one read behind so many bytes. The only error is that memory ran out.
#[inline(always)]
fn make_room(buffer: &mut Vec<u8>, count: usize) -> Result<(), AllocError>
    requires within { (count ≤ vec_len buffer.old) × (vec_len buffer.old ≤ count + chunk_size) }
    requires few { count ≤ document_limit }
    ensures room { OnOk result (vec_len buffer.new ≡ count + chunk_size) }
    ensures front { OnOk result (take count buffer.new.items ≡ take count buffer.old.items) }
{
    buffer.resize(count + CHUNK_SIZE, 0)
}

/// Reads some bytes behind so many of a buffer, and answers how many.
#[inline(always)]
fn read_behind<R: Source>(
    input: &mut R,
    buffer: &mut Vec<u8>,
    count: usize,
) -> Result<usize, Failed>
    requires { count ≤ vec_len buffer.old }
    ensures front { take count buffer.new.items ≡ take count buffer.old.items }
    ensures len { vec_len buffer.new ≡ vec_len buffer.old }
    ensures bound { IfOk result (λ more. count + more ≤ vec_len buffer.new) }
    ensures bytes { ReadConsumes (R.remaining input.old) (R.remaining input.new) result
        (drop count buffer.new.items) }
    ensures works { OnOk result (R.has_failed input.new ≡ R.has_failed input.old) }
    ensures fails { OnErr result (R.has_failed input.new ≡ true) }
    ensures call { R.read_gives input.old (bytes_moved result (drop count buffer.new.items)) input.new }
{
    input.read(&mut buffer[count..])
}
