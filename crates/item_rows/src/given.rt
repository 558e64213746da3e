//! A record of a batch of a log, by its number.

ghost use Rattle.std.specs.Prelude.{◌≡◌, ◌<◌, length, get_or};
ghost use Rattle.exec.specs.Runs.{no_record};

use kafka_record::RecordRef;
use log_item::LoggedBatch;
use std::marker::Model;

/// A record of a batch of a log, by its number. A clause sees the record.
#[derive(Drop)]
pub(crate) struct Given<'a> {
    pub(crate) logged: &'a LoggedBatch,
    pub(crate) index: usize,
}

impl<'a> Model for Given<'a> {
    ghost use Rattle.std.specs.Prelude.{◌<◌, get_or, length};
    ghost use Rattle.wire_spec.specs.declared.record.Record.{Record};
    ghost use Rattle.exec.specs.Runs.{no_record};

    ghost Value = { Record };

    ghost view = { λ g. get_or g.logged.now.records g.index no_record };

    ghost invariant = { λ g. g.index < length g.logged.now.records };
}

impl<'a> Given<'a> {
    /// The record of a batch with a number, from 0.
    #[inline(always)]
    pub(crate) fn new(logged: &'a LoggedBatch, index: usize) -> Given<'a>
        requires { index < length logged.now.records }
        ensures { result ≡ get_or logged.now.records index no_record }
    {
        Given { logged, index }
    }

    /// The same record.
    #[inline(always)]
    pub(crate) fn again(&self) -> Given<'a>
        ensures { result ≡ self.now }
    {
        Given {
            logged: self.logged,
            index: self.index,
        }
    }

    /// The record.
    #[inline(always)]
    pub(crate) fn record(&self) -> RecordRef<'a>
        ensures { result ≡ self.now }
    {
        self.logged.record(self.index)
    }
}
