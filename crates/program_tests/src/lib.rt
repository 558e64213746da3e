//! Tests of programs by public calls. In `texts` those of their texts and images, of explanations and of a script's
//! lines, in `verifier` those of the verifier, in `machines` those of programs on the interpreter and on the plain
//! machine, and in `damage` those of images that are damaged and of memory that is refused. The others are of
//! arithmetic, images, program files, rules, compiled rules and runs on many records.
#![tactic(auto)]

#[cfg(test)]
mod abreast;
#[cfg(test)]
mod block_texts;
#[cfg(test)]
mod changes;
#[cfg(test)]
mod compiled_rules;
#[cfg(test)]
mod damage;
#[cfg(test)]
mod helper_table;
#[cfg(test)]
mod image_faults;
#[cfg(test)]
mod images;
#[cfg(test)]
mod machines;
#[cfg(test)]
mod operations;
#[cfg(test)]
mod outcomes;
#[cfg(test)]
mod parts;
#[cfg(test)]
mod program_files;
#[cfg(test)]
mod programs;
#[cfg(test)]
mod rule_texts;
#[cfg(test)]
mod tables;
#[cfg(test)]
mod texts;
#[cfg(test)]
mod verifier;
