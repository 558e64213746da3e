use crate::fault::BrokerFault;

/// When workers end that nothing stops.
#[derive(Clone, Copy, Debug, PartialEq, Eq)]
pub enum Until {
    /// After the items that the logs had at the start.
    Drained,
    /// After the end of their log, or its last cell. Until then they wait for items.
    Closed,
}

/// How the worker of an input partition ended.
#[derive(Clone, Copy, Debug, PartialEq, Eq)]
pub enum Ended {
    /// This number of items is done in every output partition.
    Done(usize),
    /// The gate stopped it before it offered this item to this output partition.
    Stopped(usize, usize),
    /// A call was refused.
    Fault(BrokerFault),
    /// There was no thread for it.
    NoThread,
}
