//! The commands of a script, and the lines that say them.

ghost use Rattle.std.specs.Prelude.{◌≡◌, ◌<◌, ◌≤◌, IfSome, length, drop, nat_eq, nat_lt, codes, IfOk, if◌then◌else◌};
ghost use Rattle.std.specs.List.{list_all, starts_with};
ghost use Rattle.script.specs.Words.{texts, hex_bytes};
ghost use Rattle.script.specs.Commands.{source_of, partitions_line, table_of, load_line, deploy_line, put_line, append_line, close_line, fetch_line, go_line, command_of_words, command_from, command_of};

use crate::pairs::{bytes_word, hex};
use crate::words::{number_at, word, words};
use bytes::Bytes;
use log_spec::RawName;
use machine_spec::Table;
use std::alloc::{AllocError, Global};
use std::marker::Model;

/// The name of a file. A clause sees it as the bytes of its text.
#[derive(Drop)]
pub struct FileName {
    pub text: String,
}

impl Model for FileName {
    ghost use Rattle.std.specs.Prelude.{List, ℕ, string_bytes};

    ghost Value = { List ℕ };

    ghost view = { λ n. string_bytes n.text };
}

/// The word of a line that says where a program is, or record batches are.
#[derive(Drop)]
pub enum FileWord {
    /// In the line itself.
    Line(Bytes),
    /// In a file.
    File(FileName),
}

/// What a line asks for. A number past 2^64 - 1 is represented as 2^64 - 1.
#[derive(Drop)]
pub enum Command {
    /// The numbers of input and output partitions, and how many cells a log has.
    Partitions(u64, u64, u64),
    /// Loads the program of an image or a program file under a name. Fields: the name, where it is, and
    /// the helper table that is named, if one is.
    Load(RawName, FileWord, Option<Table>),
    /// Deploys a loaded program to an input partition.
    Deploy(u64, RawName),
    /// Appends one record to an input partition: its timestamp in milliseconds, its key and its
    /// value, which may be null.
    Put(u64, u64, Option<Bytes>, Option<Bytes>),
    /// Appends record batches, one after the other, to an input partition.
    Append(u64, FileWord),
    /// Closes the log of an input partition.
    Close(u64),
    /// Reads rows of an output partition as one record batch: from which place on, and how many at
    /// most.
    Fetch(u64, u64, u64),
    /// Runs the programs on all that was appended, and prints the rows.
    Go,
}

fn name_of(alloc: Global, text: &str) -> Result<RawName, AllocError>
    ensures { IfOk result (λ name. name ≡ text.now) }
{
    let text = String::from_str(alloc, text)?;
    Ok(RawName { text })
}

fn file_of(alloc: Global, text: &str) -> Result<FileName, AllocError>
    ensures { IfOk result (λ name. name ≡ text.now) }
{
    let text = String::from_str(alloc, text)?;
    Ok(FileName { text })
}

/// The bytes of a word that begins with `hex:`, where pairs of lower-case hex digits follow.
fn hex_word(alloc: Global, word: &[u8]) -> Result<Option<Bytes>, AllocError>
    ensures { IfOk result (λ bytes. bytes ≡ (if starts_with nat_eq word.now (codes "hex:") then hex_bytes (drop 4 word.now) else None)) }
{
    if !word.starts_with(b"hex:") {
        return Ok(None);
    }
    hex(alloc, &word[4..])
}

/// `hex:` and hex pairs are those bytes, every other word is a file's name.
fn source_named(alloc: Global, word: &str) -> Result<FileWord, AllocError>
    ensures { IfOk result (λ source. source ≡ source_of word.now) }
{
    match hex_word(alloc, word.as_bytes())? {
        Some(bytes) => Ok(FileWord::Line(bytes)),
        None => Ok(FileWord::File(file_of(alloc, word)?)),
    }
}

fn partitions(words: &[&str]) -> Option<Command>
    ensures { result ≡ partitions_line (texts words.now) }
{
    if words.len() != 4 {
        return None;
    }
    let inputs = number_at(words, 1)?;
    let outputs = number_at(words, 2)?;
    let cells = number_at(words, 3)?;
    Some(Command::Partitions(inputs, outputs, cells))
}

/// The helper table that a load names, if it has a word for it. `None` where its words are no load.
fn table_of(words: &[&str]) -> Option<Option<Table>>
    ensures table { result ≡ table_of (texts words.now) }
    ensures long { IfSome result (λ _. 3 ≤ length words.now) }
{
    if words.len() == 3 {
        return Some(None);
    }
    if words.len() == 4 && word(words, 3) == "2" {
        return Some(Some(Table::Two));
    }
    None
}

fn load(alloc: Global, words: &[&str]) -> Result<Option<Command>, AllocError>
    ensures { IfOk result (λ command. command ≡ load_line (texts words.now)) }
{
    let Some(table) = table_of(words) else {
        return Ok(None);
    };
    let name = name_of(alloc, word(words, 1))?;
    let source = source_named(alloc, word(words, 2))?;
    Ok(Some(Command::Load(name, source, table)))
}

fn deploy(alloc: Global, words: &[&str]) -> Result<Option<Command>, AllocError>
    ensures { IfOk result (λ command. command ≡ deploy_line (texts words.now)) }
{
    if words.len() != 3 {
        return Ok(None);
    }
    let Some(input) = number_at(words, 1) else {
        return Ok(None);
    };
    let name = name_of(alloc, word(words, 2))?;
    Ok(Some(Command::Deploy(input, name)))
}

fn put(alloc: Global, words: &[&str]) -> Result<Option<Command>, AllocError>
    ensures { IfOk result (λ command. command ≡ put_line (texts words.now)) }
{
    if words.len() != 5 {
        return Ok(None);
    }
    let Some(input) = number_at(words, 1) else {
        return Ok(None);
    };
    let Some(timestamp) = number_at(words, 2) else {
        return Ok(None);
    };
    let Some(key) = bytes_word(alloc, word(words, 3))? else {
        return Ok(None);
    };
    let Some(value) = bytes_word(alloc, word(words, 4))? else {
        return Ok(None);
    };
    Ok(Some(Command::Put(input, timestamp, key, value)))
}

fn append(alloc: Global, words: &[&str]) -> Result<Option<Command>, AllocError>
    ensures { IfOk result (λ command. command ≡ append_line (texts words.now)) }
{
    if words.len() != 3 {
        return Ok(None);
    }
    let Some(input) = number_at(words, 1) else {
        return Ok(None);
    };
    let source = source_named(alloc, word(words, 2))?;
    Ok(Some(Command::Append(input, source)))
}

fn close(words: &[&str]) -> Option<Command>
    ensures { result ≡ close_line (texts words.now) }
{
    if words.len() != 2 {
        return None;
    }
    let input = number_at(words, 1)?;
    Some(Command::Close(input))
}

fn fetch(words: &[&str]) -> Option<Command>
    ensures { result ≡ fetch_line (texts words.now) }
{
    if words.len() != 4 {
        return None;
    }
    let output = number_at(words, 1)?;
    let place = number_at(words, 2)?;
    let max = number_at(words, 3)?;
    Some(Command::Fetch(output, place, max))
}

fn go(words: &[&str]) -> Option<Command>
    ensures { result ≡ go_line (texts words.now) }
{
    if words.len() == 1 {
        Some(Command::Go)
    } else {
        None
    }
}

/// The command of words, of which there is at least one.
fn command_said(alloc: Global, words: &[&str]) -> Result<Option<Command>, AllocError>
    requires { 0 < length words.now }
    ensures { IfOk result (λ command. command ≡ command_of_words (texts words.now)) }
{
    let name = word(words, 0);
    if name == "partitions" {
        Ok(partitions(words))
    } else if name == "load" {
        load(alloc, words)
    } else if name == "deploy" {
        deploy(alloc, words)
    } else if name == "put" {
        put(alloc, words)
    } else if name == "append" {
        append(alloc, words)
    } else if name == "close" {
        Ok(close(words))
    } else if name == "fetch" {
        Ok(fetch(words))
    } else if name == "go" {
        Ok(go(words))
    } else {
        Ok(None)
    }
}

fn is_some_word(word: &str) -> bool
    ensures { result ≡ nat_lt 0 (length word.now) }
{
    !word.is_empty()
}

fn are_some(words: &[&str]) -> bool
    ensures { result ≡ list_all (λ word. nat_lt 0 (length word.now)) words.now }
{
    words.iter().all(|word| is_some_word(word))
}

/// Whether no word is empty.
fn are_words(words: &[&str]) -> bool
    ensures { result ≡ list_all (λ word. nat_lt 0 (length word)) (texts words.now) }
{
    are_some(words)
}

/// The command of words; `None` where one of them is empty, or they say none.
fn command_from(alloc: Global, words: &[&str]) -> Result<Option<Command>, AllocError>
    ensures { IfOk result (λ command. command ≡ command_from (texts words.now)) }
{
    if words.is_empty() {
        return Ok(None);
    }
    if !are_words(words) {
        return Ok(None);
    }
    command_said(alloc, words)
}

/// The command of a line; `None` where the line is none. A line that is empty or begins with `#`
/// says nothing and is no command either. It fails only where memory runs out.
pub fn parse(alloc: Global, line: &str) -> Result<Option<Command>, AllocError>
    ensures { IfOk result (λ command. command ≡ command_of line.now) }
{
    let words = words(alloc, line)?;
    command_from(alloc, &words)
}
