use bytes::Bytes;
use std::marker::Model;
use wire_spec::Headers;

/// Where a record is, and how many output partitions there are.
#[derive(Clone, Copy, Debug, PartialEq, Eq)]
pub struct Place {
    /// The input partition, below 64.
    pub partition: usize,
    /// The record's offset in its input partition, below 2^62.
    pub offset: u64,
    /// The record's timestamp in milliseconds, below 2^62.
    pub timestamp: u64,
    /// How many output partitions there are, 1 to 64.
    pub outputs: usize,
}

/// What a program gives to an output partition.
#[derive(Drop)]
pub struct Emission {
    pub out: usize,
    pub key: Option<Bytes>,
    pub value: Option<Bytes>,
    pub headers: Headers,
}

/// The emissions of a run, in order, at most 16. A clause sees them as the list of them.
pub struct Emissions {
    pub list: Vec<Emission>,
}

/// Many runs emit nothing: to drop an empty list takes no call.
impl Drop for Emissions {
    #[inline(always)]
    fn drop(self) {
        let Emissions { list } = self;
        if list.is_empty() {
            list.destroy_empty();
        } else {
            drop(list);
        }
    }
}

impl Model for Emissions {
    ghost use Rattle.std.specs.Prelude.{List, ◌≤◌, length};
    ghost use Rattle.machine_spec.specs.declared.limits.TheConstants.{MAX_EMISSIONS};
    ghost use Rattle.machine_spec.specs.declared.outcome.Emission.{Emission};

    ghost Value = { List Emission };

    ghost view = { λ e. e.list.items };

    ghost invariant = { λ e. length e.list.items ≤ MAX_EMISSIONS };
}

/// What a run ends with: its emissions, or the code by which the program rejects the record.
#[derive(Drop)]
pub enum Outcome {
    Kept(Emissions),
    Rejected(u64),
}
