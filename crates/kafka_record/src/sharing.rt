//! Other owners of the bytes of records. No byte of a key, a value or a header part is copied.

ghost use Rattle.std.specs.Prelude.{◌≡◌, IfOk};

use bytes::Bytes;
use std::alloc::{AllocError, Global};
use wire_spec::{Header, Headers, Record};

/// Another owner of a key or a value, which may be null. It fails only where memory runs out.
pub fn share_bytes(bytes: &Option<Bytes>) -> Result<Option<Bytes>, AllocError>
    ensures { IfOk result (λ shared. shared ≡ bytes.now) }
{
    match bytes {
        Some(bytes) => Ok(Some(bytes.clone()?)),
        None => Ok(None),
    }
}

/// Another owner of a header's parts.
fn share_header(header: &Header) -> Result<Header, AllocError>
    ensures { IfOk result (λ shared. shared ≡ header.now) }
{
    Ok(Header {
        key: header.key.clone()?,
        value: share_bytes(&header.value)?,
    })
}

/// A list of the same headers, in one allocation.
pub(crate) fn share_list(alloc: Global, headers: &[Header]) -> Result<Headers, AllocError>
    ensures { IfOk result (λ shared. shared ≡ headers.now) }
{
    let mut list = Vec::with_capacity(alloc, headers.len())?;
    for header in headers {
        list.push(share_header(header)?)?;
    }
    Ok(Headers { list })
}

/// Another list of the same headers, in one allocation. It fails only where memory runs out.
pub fn share_headers(alloc: Global, headers: &Headers) -> Result<Headers, AllocError>
    ensures { IfOk result (λ shared. shared ≡ headers.now) }
{
    share_list(alloc, &headers.list)
}

/// Another record with the same parts: its key, its value and its headers' parts share their
/// bytes with the given one. It fails only where memory runs out.
pub fn share(alloc: Global, given: &Record) -> Result<Record, AllocError>
    ensures { IfOk result (λ shared. shared ≡ given.now) }
{
    Ok(Record {
        timestamp_delta: given.timestamp_delta,
        key: share_bytes(&given.key)?,
        value: share_bytes(&given.value)?,
        headers: share_headers(alloc, &given.headers)?,
    })
}
