ghost use Rattle.std.specs.Prelude.{◌≡◌, true};

/// What is asked before an item of an input partition is offered to an output partition.
pub trait Gate {
    /// Whether the worker goes on. False stops it before the offer.
    fn pass(&self, input: usize, index: usize, output: usize) -> bool;
}

/// A gate that is always open: it stops no worker.
#[derive(Drop)]
pub struct Open;

impl Gate for Open {
    fn pass(&self, _input: usize, _index: usize, _output: usize) -> bool
        ensures { result ≡ true }
    {
        true
    }
}
