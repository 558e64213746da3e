//! Headers that a run adds to what it emits.
ghost use Rattle.std.specs.Prelude.{◌≡◌, ◌<◌, ◌++◌, length, IfOk, OnOk, OnErr};
ghost use Rattle.machine_spec.specs.Machine.{with_emission, header_refusal, header_added};
ghost use Rattle.helpers.specs.Emitted.{emission_in, yield_in};
ghost use Rattle.helpers.specs.Pieces.{piece_bytes, IsPiece};

use crate::drafts::{Draft, DraftHeaders};
use crate::emitted::Emitted;
use crate::emitter::Emitter;
use crate::pieces::Piece;
use kafka_record::{RecordRef, is_text, share_bytes};
use machine_spec::MAX_EMISSIONS;
use std::alloc::{AllocError, Global};
use wire_spec::{Header, Headers, MAX_HEADER_KEY, MAX_HEADER_VALUE, MAX_HEADERS};

/// Adds other owners of headers at the end of a list.
fn add_shared(list: &mut Vec<Header>, more: &[Header]) -> Result<(), AllocError>
    ensures { OnOk result (list.new.items ≡ list.old.items ++ more.now) }
{
    for header in more {
        list.push(Header {
            key: header.key.clone()?,
            value: share_bytes(&header.value)?,
        })?;
    }
    Ok(())
}

/// Headers, and after them other owners of more.
fn joined(mut headers: Headers, more: &Headers) -> Result<Headers, AllocError>
    ensures { IfOk result (λ all. all ≡ headers ++ more.now) }
{
    headers.list.reserve_exact(more.list.len())?;
    add_shared(&mut headers.list, &more.list)?;
    Ok(headers)
}

impl Emitter {
    /// Adds an emission with the added headers after its own and returns 0. On an error none was added.
    #[inline(never)]
    pub(crate) fn add_longer(
        &mut self,
        alloc: Global,
        given: &RecordRef,
        item: Emitted,
    ) -> Result<u64, AllocError>
        requires { length self.old.list < MAX_EMISSIONS }
        ensures answer { IfOk result (λ code. code ≡ 0) }
        ensures emitted { OnOk result (yield_in given.now self.new
            ≡ with_emission (yield_in given.now self.old) (emission_in given.now item)) }
        ensures err { OnErr result (self.new ≡ self.old) }
    {
        let Draft {
            out,
            key,
            value,
            headers,
        } = item.into_draft();
        let headers = joined(headers.into_headers(alloc, given)?, &self.added)?;
        self.emitted.list.push(Emitted::Made(Draft {
            out,
            key,
            value,
            headers: DraftHeaders::Listed(headers),
        }))?;
        Ok(0)
    }

    /// Why a header is not added: 1, there are sixteen with the record's own; 2, its key has over 255 bytes or is no
    /// UTF-8; 3, its value has over 4,096 bytes; else 0.
    fn refusal_of(&self, given: &RecordRef, key: &[u8], value: &[u8]) -> u64
        ensures { result ≡ header_refusal given.now (yield_in given.now self.now) key.now value.now }
    {
        let (own, added) = (given.headers().len(), self.added.list.len());
        if own as u128 + added as u128 >= MAX_HEADERS as u128 {
            1
        } else if key.len() > MAX_HEADER_KEY || !is_text(key) {
            2
        } else if value.len() > MAX_HEADER_VALUE {
            3
        } else {
            0
        }
    }

    /// Adds a header to what is emitted from now on, after its other headers. Returns 1 where there are sixteen with
    /// the record's own; else 2 where the key has over 255 bytes or is no UTF-8; else 3 where the value has over 4,096
    /// bytes; else 0, and it is added. It fails only where memory runs out; nothing is added then.
    pub fn add_header(
        &mut self,
        alloc: Global,
        given: &RecordRef,
        key: Piece,
        value: Piece,
    ) -> Result<u64, AllocError>
        requires key { IsPiece given.now key }
        requires value { IsPiece given.now value }
        ensures answer { IfOk result (λ code. code ≡ header_refusal given.now (yield_in given.now self.old)
            (piece_bytes given.now key.entry) (piece_bytes given.now value.entry)) }
        ensures added { OnOk result (yield_in given.now self.new ≡ header_added given.now (yield_in given.now self.old)
            (piece_bytes given.now key.entry) (piece_bytes given.now value.entry)) }
        ensures err { OnErr result (self.new ≡ self.old) }
    {
        let code = self.refusal_of(given, key.slice(given), value.slice(given));
        if code != 0 {
            return Ok(code);
        }
        let key = key.bytes(alloc, given)?;
        let value = value.bytes(alloc, given)?;
        self.added.list.push(Header {
            key,
            value: Some(value),
        })?;
        Ok(0)
    }
}
