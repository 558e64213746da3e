//! Tests of the core, alone (`worlds`) and beside logs, books and the catalogue (`schedules`), and of batches through a
//! program without a broker (`transforms`), by public calls.
#![tactic(auto)]

#[cfg(test)]
mod interrupted;
#[cfg(test)]
mod schedules;
#[cfg(test)]
mod transforms;
#[cfg(test)]
mod verdicts;
#[cfg(test)]
mod worlds;
