//! Texts of programs, explanations, lines of scripts.

mod asm;
mod explained;
mod script_lines;
