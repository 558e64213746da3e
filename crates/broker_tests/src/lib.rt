//! Tests of a broker by public calls: logs, the catalogue, workers, books and fetches; in `reports` of reports, in
//! `memory` of what calls leave where memory runs out, and in `schedules` of workers that are stopped and threads that
//! meet.
#![tactic(auto)]

#[cfg(test)]
mod audits;
#[cfg(test)]
mod beside;
#[cfg(test)]
mod books;
#[cfg(test)]
mod deploys;
#[cfg(test)]
mod fetched;
#[cfg(test)]
mod fetches;
#[cfg(test)]
mod gates;
#[cfg(test)]
mod heads;
#[cfg(test)]
mod loads;
#[cfg(test)]
mod log_stage;
#[cfg(test)]
mod logs;
#[cfg(test)]
mod memory;
#[cfg(test)]
mod names;
#[cfg(test)]
mod offers;
#[cfg(test)]
mod play;
#[cfg(test)]
mod reports;
#[cfg(test)]
mod schedules;
#[cfg(test)]
mod since;
#[cfg(test)]
mod stage;
#[cfg(test)]
mod steps;
#[cfg(test)]
mod streams;
#[cfg(test)]
mod threads;
#[cfg(test)]
mod waits;
#[cfg(test)]
mod workers;
