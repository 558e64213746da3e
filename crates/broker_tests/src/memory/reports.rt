//! A report of a broker.

use crate::memory::making::say;
use crate::stage::Stage;
use broker::BrokerFault;
use broker_fixtures::Ending;
use part_log::Names;
use report::{ReportFault, Snapshot, gather, write};
use std::rt::Clock;
use std::sync::Wait;
use std::thread::Threads;

/// Each record goes to output 0 and is then rejected by the first byte of its value, if that is not 0.
static FIRST_BYTE: [u8; 64] = [
    0xbf, 0x16, 0, 0, 0, 0, 0, 0, 0xbf, 0x27, 0, 0, 0, 0, 0, 0, 0xb7, 1, 0, 0, 0, 0, 0, 0, 0x85, 0,
    0, 0, 3, 0, 0, 0, 0xb7, 0, 0, 0, 0, 0, 0, 0, 0xa5, 7, 1, 0, 1, 0, 0, 0, 0x71, 0x60, 0, 0, 0, 0,
    0, 0, 0x95, 0, 0, 0, 0, 0, 0, 0,
];

const WANT: &str = "row 0 0 1 0 1000 6b 00 0\n\
    out 0 in 0 done 4 rows 1\n\
    in 0 items 4 records 3 unprogrammed 0 kept 1\n\
    in 0 reject 7 count 1\n\
    in 0 reject 9 count 1\n";

/// The values of the records.
static VALUES: [u8; 3] = [9, 0, 7];

impl<Id: Names + Send + Sync, R: Threads + Wait + Clock + Print + Sync> Stage<'_, Id, R> {
    pub(crate) fn report_all(&self) -> Result<(), Ending> {
        if !self.fill_and_drain() {
            return Err(Ending::Wrong("fill"));
        }
        match self.snapshot_twice() {
            Some(snapshot) if self.writes_twice(&snapshot) => Ok(()),
            Some(_) => Err(Ending::Wrong("write")),
            None => Err(Ending::Wrong("gather")),
        }
    }

    /// A mark and three records, and what workers make of them, each tried again where it was refused;
    /// whether it could.
    fn fill_and_drain(&self) -> bool {
        (self.deploy(0, &FIRST_BYTE).is_some() || self.deploy(0, &FIRST_BYTE).is_some())
            && self.puts_all_twice(&VALUES)
            && (self.drain() || self.drain())
    }

    /// Appends records with these values, each tried again where it was refused; whether it could.
    fn puts_all_twice(&self, values: &[u8]) -> bool {
        for value in values {
            if !self.puts(0, *value) && !self.puts(0, *value) {
                return false;
            }
        }
        true
    }

    fn snapshot_twice(&self) -> Option<Snapshot<Id>> {
        for _ in 0..2 {
            match gather(self.rt, self.alloc, &self.broker) {
                Ok(snapshot) => return Some(snapshot),
                Err(fault) => {
                    say(self.rt, "gather", fault);
                    if fault != BrokerFault::Memory {
                        return None;
                    }
                }
            }
        }
        None
    }

    /// Whether the report is the right one, after a refused write at the second try.
    fn writes_twice(&self, snapshot: &Snapshot<Id>) -> bool {
        let mut text: Vec<u8> = Vec::new(self.alloc);
        for _ in 0..2 {
            text.clear();
            match write(self.alloc, snapshot, &mut text) {
                Ok(()) => return text.as_slice() == WANT.as_bytes(),
                Err(fault) => {
                    let _ = println!(self.rt; "refused write: {fault}");
                    let is_begun = WANT.as_bytes().starts_with(text.as_slice());
                    if fault != ReportFault::Memory || !is_begun {
                        return false;
                    }
                }
            }
        }
        false
    }
}
