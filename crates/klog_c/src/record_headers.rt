//! Headers that a record may have.

ghost use Rattle.std.specs.Prelude.{◌≡◌, ◌<◌, [], ◌∷◌, ◌++◌, length, IfOk, OnOk, OnErr};
ghost use Rattle.std.specs.Str.{is_utf8};
ghost use Rattle.wire_spec.specs.declared.limits.TheConstants.{MAX_HEADERS as most_headers};
ghost use Rattle.wire_spec.specs.declared.record.Header.{Header};
ghost use Rattle.wire_spec.specs.RecordSpelling.{HeaderFits};
ghost use Rattle.klog_c.specs.Headers as definitions;

use crate::faults::{LENGTH, MEMORY, OK, RANGE, TEXT};
use crate::given_parts::{is_part_fitting, part_of};
use bytes::Bytes;
use std::alloc::{AllocError, Global};
use std::marker::Model;
use wire_spec::{Header, Headers, MAX_HEADER_KEY, MAX_HEADER_VALUE, MAX_HEADERS};

/// Whether the bytes are UTF-8.
fn is_text(bytes: &[u8]) -> bool
    ensures { result ≡ is_utf8 bytes.now }
{
    std::str::from_utf8(bytes).is_ok()
}

/// The first fault of a header after this number of them, or 0.
fn header_fault(count: usize, key: &[u8], value: &[u8], is_null: bool) -> u32
    ensures { result ≡ definitions.header_fault count key.now is_null value.now }
{
    if key.len() > MAX_HEADER_KEY || !is_part_fitting(is_null, value, MAX_HEADER_VALUE) {
        LENGTH
    } else if !is_text(key) {
        TEXT
    } else if MAX_HEADERS <= count {
        RANGE
    } else {
        OK
    }
}

/// The header of a key and a value. It fails only where memory runs out.
fn header_of(alloc: Global, key: &[u8], value: &[u8], is_null: bool) -> Result<Header, AllocError>
    ensures { IfOk result (λ header. header ≡ definitions.header_of key.now is_null value.now) }
{
    Ok(Header {
        key: Bytes::copy_from_slice(alloc, key)?,
        value: part_of(alloc, is_null, value)?,
    })
}

/// Headers that a record may have: their type keeps that. A clause sees the list of them.
#[derive(Drop)]
pub struct RecordHeaders {
    headers: Headers,
}

impl Model for RecordHeaders {
    ghost use Rattle.std.specs.Prelude.{List};
    ghost use Rattle.wire_spec.specs.declared.record.Header.{Header};
    ghost use Rattle.klog_c.specs.Headers.{AreHeaders};

    ghost Value = { List Header };

    ghost view = { λ h. h.headers };

    ghost invariant = { λ h. AreHeaders h.headers };
}

impl RecordHeaders {
    /// No headers.
    pub(crate) fn new(alloc: Global) -> RecordHeaders
        ensures { result ≡ [] }
    {
        RecordHeaders {
            headers: Headers {
                list: Vec::new(alloc),
            },
        }
    }

    /// The headers.
    pub(crate) fn headers(&self) -> &Headers
        ensures headers { result.now ≡ self.now }
        ensures are { definitions.AreHeaders self.now }
    {
        &self.headers
    }

    /// Adds a header at the end. It fails only where memory runs out; then nothing changes.
    fn push(&mut self, header: Header) -> Result<(), AllocError>
        requires fits { HeaderFits header }
        requires room { length self.old < most_headers }
        ensures ok { OnOk result (self.new ≡ self.old ++ header ∷ []) }
        ensures err { OnErr result (self.new ≡ self.old) }
    {
        self.headers.list.push(header)?;
        Ok(())
    }

    /// Adds a header of a key and a value at the end. A fault changes nothing.
    #[tactic(auto, using(crate::proofs::Ranges::header_fits))]
    pub(crate) fn add(&mut self, alloc: Global, key: &[u8], value: &[u8], is_null: bool) -> u32
        ensures { definitions.Adds self.old key.now is_null value.now self.new result }
    {
        let fault = header_fault(self.headers.list.len(), key, value, is_null);
        if fault != OK {
            return fault;
        }
        let Ok(header) = header_of(alloc, key, value, is_null) else {
            return MEMORY;
        };
        match self.push(header) {
            Ok(()) => OK,
            Err(_) => MEMORY,
        }
    }
}
