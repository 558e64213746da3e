//! The calls of a transcript.

use std::alloc::{AllocError, Global};

/// A call of a transcript.
#[derive(Drop)]
pub(crate) struct Call {
    /// The number of its line, from 1.
    pub(crate) line: usize,
    pub(crate) words: Vec<String>,
    /// Its standard input.
    pub(crate) input: String,
    /// Whether the answer has what it writes to standard output.
    pub(crate) has_output: bool,
    /// Whether the answer has what it writes to standard error.
    pub(crate) has_error: bool,
    /// What it writes to standard output, then to standard error, and its status unless that is 0.
    pub(crate) answer: String,
}

/// A text without this end, and whether it had it.
fn without<'a>(text: &'a str, end: &str) -> (&'a str, bool) {
    match text.strip_suffix(end) {
        Some(begin) => (begin, true),
        None => (text, false),
    }
}

/// A call of a line, which has no input and answers nothing.
fn call_of(alloc: Global, line: usize, text: &str) -> Result<Call, AllocError> {
    let (text, drops_error) = without(text, " 2> /dev/null");
    let (text, drops_output) = without(text, " > /dev/null");
    let mut words = Vec::new(alloc);
    for word in text.split(' ') {
        words.push(String::from_str(alloc, word)?)?;
    }
    Ok(Call {
        line,
        words,
        has_output: !drops_output,
        has_error: !drops_error,
        input: String::new(alloc),
        answer: String::new(alloc),
    })
}

/// The text of a line that is input.
fn input_of<'a>(line: &'a str) -> Option<&'a str> {
    if line == "|" {
        Some("")
    } else {
        line.strip_prefix("| ")
    }
}

/// Adds a line to a text.
fn push_line(to: &mut String, line: &str) -> Result<(), AllocError> {
    to.push_str(line)?;
    to.push('\n')
}

/// Adds a line of a call to its input or its answer.
fn add_line(call: &mut Call, line: &str) -> Result<(), AllocError> {
    match input_of(line) {
        Some(text) => push_line(&mut call.input, text),
        None => push_line(&mut call.answer, line),
    }
}

/// Whether a line is no part of a call.
fn is_remark(line: &str) -> bool {
    line.is_empty() || line.starts_with('#')
}

/// The calls of a transcript, in order.
pub(crate) fn calls_of(alloc: Global, text: &str) -> Result<Vec<Call>, AllocError> {
    let mut calls = Vec::new(alloc);
    for (at, line) in text.split('\n').enumerate() {
        if let Some(words) = line.strip_prefix("$ ") {
            calls.push(call_of(alloc, at.wrapping_add(1), words)?)?;
        } else if let (false, Some(call)) = (is_remark(line), calls.last_mut()) {
            add_line(call, line)?;
        }
    }
    Ok(calls)
}
