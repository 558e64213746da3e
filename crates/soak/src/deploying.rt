//! Deployers, which load two programs in turn and mark each in a log.

use crate::making::{image, program_name};
use crate::threads::INPUTS;
use broker::Broker;
use catalogue::{Catalogue, Finder};
use machine_spec::Table;
use part_log::Names;
use std::alloc::Global;
use std::sync::Wait;
use std::thread;

/// How often a deployer lets other threads go first between two deployments.
const RESTS: usize = 25;

/// How many versions a deployer loads beside that number of records.
pub(crate) fn versions(records: usize) -> usize {
    records / 1_000 + 8
}

/// Loads versions under the deployer's name, from that turn on, and deploys each. None where a call is
/// refused.
pub(crate) fn deploy_all<Id: Names, H: Wait + Drop, R: Wait>(
    rt: &R,
    alloc: Global,
    broker: &Broker<Id, Catalogue<H>>,
    deployer: usize,
    first: usize,
    end: usize,
) -> Option<()> {
    let name = program_name(deployer);
    let Ok(mut finder) = broker.finder(rt, alloc) else {
        return None;
    };
    for turn in first..end {
        if !deploy(rt, alloc, broker, name, &mut finder, turn) {
            return None;
        }
        rest();
    }
    Some(())
}

/// The log that a deployer marks in a turn: each of them in the first turns, and by both programs later.
fn input_of(turn: usize) -> usize {
    turn.wrapping_add(turn / INPUTS) % INPUTS
}

/// Whether a version is loaded and deployed.
fn deploy<Id: Names, H: Wait + Drop, R: Wait>(
    rt: &R,
    alloc: Global,
    broker: &Broker<Id, Catalogue<H>>,
    name: &str,
    finder: &mut Finder,
    turn: usize,
) -> bool {
    let Some(image) = image(alloc, turn) else {
        return false;
    };
    match broker.load(rt, alloc, name, &image, Table::One) {
        Ok((_version, known)) => broker
            .deploy(rt, alloc, input_of(turn), known.name(), finder, &known)
            .is_ok(),
        Err(_) => false,
    }
}

/// Lets other threads go first for a while.
fn rest() {
    for _ in 0..RESTS {
        thread::yield_now();
    }
}
