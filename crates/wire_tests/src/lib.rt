//! Tests of the wire crates by their public calls: published values, refusals, texts; batches that are damaged
//! and memory that is refused.
#![tactic(auto)]

#[cfg(test)]
mod batches;
#[cfg(test)]
mod checksums;
#[cfg(test)]
mod damage;
#[cfg(test)]
mod feeds;
#[cfg(test)]
mod packed;
#[cfg(test)]
mod parts;
#[cfg(test)]
mod records;
#[cfg(test)]
mod refused;
#[cfg(test)]
mod spelled;
#[cfg(test)]
mod values;
#[cfg(test)]
mod varints;
#[cfg(test)]
mod verdicts;
