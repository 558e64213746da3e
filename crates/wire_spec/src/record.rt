use bytes::Bytes;
use std::marker::Model;

/// A record header of Kafka's message format: a key of UTF-8 text and a value, which may be null.
#[derive(Drop)]
pub struct Header {
    pub key: Bytes,
    pub value: Option<Bytes>,
}

/// The headers of a record, in order. A clause sees them as the list of them.
pub struct Headers {
    pub list: Vec<Header>,
}

/// Most records have no headers: to drop an empty list takes no call.
impl Drop for Headers {
    #[inline(always)]
    fn drop(self) {
        let Headers { list } = self;
        if list.is_empty() {
            list.destroy_empty();
        } else {
            drop(list);
        }
    }
}

impl Model for Headers {
    ghost use Rattle.std.specs.Prelude.{List};
    ghost use Rattle.wire_spec.specs.declared.record.Header.{Header};

    ghost Value = { List Header };

    ghost view = { λ h. h.list.items };
}

/// A record of Kafka's message format (magic 2). A null key or value is `None`; the record's
/// timestamp is its batch's base timestamp plus `timestamp_delta`, in milliseconds.
#[derive(Drop)]
pub struct Record {
    pub timestamp_delta: i64,
    pub key: Option<Bytes>,
    pub value: Option<Bytes>,
    pub headers: Headers,
}

/// The records of a batch, in order. A clause sees them as the list of them.
#[derive(Drop)]
pub struct Records {
    pub list: Vec<Record>,
}

impl Model for Records {
    ghost use Rattle.std.specs.Prelude.{List};
    ghost use Rattle.wire_spec.specs.declared.record.Record.{Record};

    ghost Value = { List Record };

    ghost view = { λ r. r.list.items };
}

/// A record batch (magic 2). Each field but the records is kept as it came on the wire, so that a
/// batch has one spelling.
#[derive(Drop)]
pub struct Batch {
    /// The field baseOffset, which the producer sets and a log doesn't look at.
    pub base_offset: i64,
    /// The field partitionLeaderEpoch.
    pub leader_epoch: i32,
    /// The field baseTimestamp, in milliseconds: what the records' timestamps count from.
    pub base_timestamp: i64,
    /// The field producerId, -1 for none.
    pub producer_id: i64,
    /// The field producerEpoch, -1 for none.
    pub producer_epoch: i16,
    /// The field baseSequence, -1 for none.
    pub base_sequence: i32,
    /// The records, 1 to 10,000 of them.
    pub records: Records,
}
