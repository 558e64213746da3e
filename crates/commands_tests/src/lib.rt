//! Tests of the calls of the program with files in memory: files of known bytes, readers and writers that fail, a
//! session's lines. What calls answer over the system's files is in `transcripts`.
#![tactic(auto)]

#[cfg(test)]
mod failures;
#[cfg(test)]
mod known;
#[cfg(test)]
mod odd_shelf;
#[cfg(test)]
mod receipts;
#[cfg(test)]
mod refused_images;
#[cfg(test)]
mod shared_files;
#[cfg(test)]
mod shelf;
#[cfg(test)]
mod torn;
#[cfg(test)]
mod usage_line;
#[cfg(test)]
mod verdicts;
