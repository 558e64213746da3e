//! Emissions of the record with another value: a piece of one of its parts, or its value with a change.
ghost use Rattle.std.specs.Prelude.{◌≡◌, ◌<◌, length, IfOk, OnOk, OnErr, Some};
ghost use Rattle.machine_spec.specs.Machine.{bytes_of, with_emission, code_unless, emitted_unless, cut_refusal, cut_record, changed_bytes, change_refusal, changed_record};
ghost use Rattle.machine_spec.specs.Parts.{part_bytes};
ghost use Rattle.helpers.specs.Emitted.{yield_in};
ghost use Rattle.helpers.specs.Pieces.{piece_bytes, IsPiece};

use crate::drafts::{Draft, DraftHeaders, DraftKey, DraftValue, Edit};
use crate::emitted::Emitted;
use crate::emitter::{Emitter, code_of};
use crate::parts::{text, text_length};
use crate::pieces::Piece;
use crate::room::has_part;
use crate::slices::PartSlice;
use kafka_record::RecordRef;
use machine_spec::{MAX_EMISSIONS, Place};
use std::alloc::{AllocError, Global};
use wire_spec::MAX_VALUE;

/// A change of the record's value: so many bytes from a place on become others.
#[derive(Clone, Copy, Debug)]
pub struct ValueChange<'a> {
    pub place: u64,
    pub count: u64,
    pub bytes: Piece<'a>,
}

/// The emit code where a part, or the value, lacks the bytes that are asked for.
const LACKS_BYTES: u64 = 4;

/// The emit code where the value gets longer than 1,048,576 bytes.
const TOO_LONG: u64 = 5;

/// Why a change of a value is not emitted: 4, the value lacks the bytes; 5, it gets too long; else 0.
fn refusal_of(value: &[u8], place: u64, count: u64, others: &[u8]) -> u64
    ensures { result ≡ change_refusal value.now place count others.now }
{
    if !has_part(value, place, count) {
        return LACKS_BYTES;
    }
    let kept = value.len() - count as usize;
    if kept as u128 + others.len() as u128 > MAX_VALUE as u128 {
        TOO_LONG
    } else {
        0
    }
}

impl Emitter {
    /// Adds the record with a change of its value and returns 0. On an error none was added.
    #[inline(never)]
    fn add_changed(
        &mut self,
        alloc: Global,
        given: &RecordRef,
        out: usize,
        change: ValueChange,
    ) -> Result<u64, AllocError>
        requires room { length self.old.list < MAX_EMISSIONS }
        requires bytes { IsPiece given.now change.bytes }
        ensures answer { IfOk result (λ code. code ≡ 0) }
        ensures emitted { OnOk result (yield_in given.now self.new
            ≡ with_emission (yield_in given.now self.old) (record {
              out = out;
              key = given.now.key;
              value = Some (changed_bytes (bytes_of given.now.value) change.entry.place change.entry.count
                  (piece_bytes given.now change.entry.bytes));
              headers = given.now.headers;
            })) }
        ensures err { OnErr result (self.new ≡ self.old) }
    {
        self.begin()?;
        let bytes = change.bytes.bytes(alloc, given)?;
        let edit = Edit {
            place: change.place,
            count: change.count,
            bytes,
        };
        self.add(
            alloc,
            given,
            Emitted::Made(Draft {
                out,
                key: DraftKey::Own,
                value: DraftValue::Edited(edit),
                headers: DraftHeaders::Own,
            }),
        )
    }

    /// Emits the record's key and headers with a piece of one of its parts as the value. Returns the emit code:
    /// the first of those of `emit_record` that holds; else 4 where the part lacks one of the bytes; else 0, and
    /// it is emitted. It fails only where memory runs out; nothing is emitted then.
    pub fn emit_part(
        &mut self,
        alloc: Global,
        given: &RecordRef,
        place: &Place,
        out: u64,
        slice: &PartSlice,
    ) -> Result<u64, AllocError>
        ensures answer { IfOk result (λ code. code
            ≡ code_unless (record { given = given.now; place = place.now }) (yield_in given.now self.old)
            (cut_refusal (part_bytes given.now slice.now.part) slice.now.place slice.now.count)
            (cut_record (record { given = given.now; place = place.now }) out (part_bytes given.now slice.now.part)
            slice.now.place slice.now.count)) }
        ensures emitted { OnOk result (yield_in given.now self.new
            ≡ emitted_unless (record { given = given.now; place = place.now }) (yield_in given.now self.old)
            (cut_refusal (part_bytes given.now slice.now.part) slice.now.place slice.now.count)
            (cut_record (record { given = given.now; place = place.now }) out (part_bytes given.now slice.now.part)
            slice.now.place slice.now.count)) }
        ensures err { OnErr result (self.new ≡ self.old) }
    {
        let code = code_of(place, self.len(), out, text_length(&given.key()));
        if code != 0 {
            return Ok(code);
        }
        if slice.is_in(given) {
            self.add_excerpt(alloc, given, out, Some(*slice))
        } else {
            Ok(LACKS_BYTES)
        }
    }

    /// Emits the record with a change of its value; a null value has no bytes. Returns the emit code: the first
    /// of those of `emit_record` that holds; else 4 where the value lacks one of the bytes that are replaced;
    /// else 5 where it gets longer than 1,048,576 bytes; else 0, and it is emitted. It fails only where memory
    /// runs out; nothing is emitted then.
    pub fn emit_changed(
        &mut self,
        alloc: Global,
        given: &RecordRef,
        place: &Place,
        out: u64,
        change: ValueChange,
    ) -> Result<u64, AllocError>
        requires { IsPiece given.now change.bytes }
        ensures answer { IfOk result (λ code. code
            ≡ code_unless (record { given = given.now; place = place.now }) (yield_in given.now self.old)
            (change_refusal (bytes_of given.now.value) change.entry.place change.entry.count (piece_bytes given.now change.entry.bytes))
            (changed_record (record { given = given.now; place = place.now }) out change.entry.place change.entry.count
            (piece_bytes given.now change.entry.bytes))) }
        ensures emitted { OnOk result (yield_in given.now self.new
            ≡ emitted_unless (record { given = given.now; place = place.now }) (yield_in given.now self.old)
            (change_refusal (bytes_of given.now.value) change.entry.place change.entry.count (piece_bytes given.now change.entry.bytes))
            (changed_record (record { given = given.now; place = place.now }) out change.entry.place change.entry.count
            (piece_bytes given.now change.entry.bytes))) }
        ensures err { OnErr result (self.new ≡ self.old) }
    {
        let code = code_of(place, self.len(), out, text_length(&given.key()));
        if code != 0 {
            return Ok(code);
        }
        let whole = given.value();
        let value = text(&whole);
        let others = change.bytes.slice(given);
        let refusal = refusal_of(value, change.place, change.count, others);
        if refusal != 0 {
            return Ok(refusal);
        }
        self.add_changed(alloc, given, out as usize, change)
    }
}
