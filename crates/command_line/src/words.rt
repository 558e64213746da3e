//! The call that words ask for.

ghost use Rattle.std.specs.Prelude.{◌≡◌, ◌==◌, ◌&&◌, nat_lt, length, slice_index, IfOk, IfSome};
ghost use Rattle.command_line.specs.Calls.{IsAccepted};

use crate::call::{Call, ImageCall, Misuse};
use crate::forms::program;
use crate::tables::{shown_of, table_of};
use crate::transforms::transform_of;
use batch_text::Listing;
use clap::ArgMatches;
use clap::error::ErrorKind;
use std::alloc::Global;

/// Whether a word begins with `-` and is longer. No file has such a name, and a file may be named `-`.
fn is_option(word: &str) -> bool
    ensures { result ≡ (nat_lt 1 (length word.now) && (slice_index word.now 0 == 45)) }
{
    word.len() > 1 && word.as_bytes()[0] == b'-'
}

/// The words that follow a command's name.
#[derive(Clone, Copy)]
struct Operands<'a> {
    first: &'a str,
    second: Option<&'a str>,
    third: Option<&'a str>,
}

fn assemble<'a>(words: Operands<'a>) -> Option<ImageCall<'a>> {
    Some(ImageCall::Assemble(words.first, words.second?))
}

fn compile<'a>(words: Operands<'a>) -> Option<ImageCall<'a>> {
    Some(ImageCall::Compile(words.first, words.second?))
}

fn check<'a>(words: Operands<'a>) -> Option<ImageCall<'a>> {
    Some(ImageCall::Check(words.first, table_of(words.second)?))
}

fn explain<'a>(words: Operands<'a>) -> Option<ImageCall<'a>> {
    let (table, extent) = shown_of(words.second, words.third)?;
    Some(ImageCall::Explain(words.first, table, extent))
}

/// What the name of a command and the words that follow it ask of an image.
fn image_call<'a>(name: &str, words: Operands<'a>) -> Option<ImageCall<'a>> {
    match name {
        "asm" => assemble(words),
        "check" => check(words),
        "dis" => Some(ImageCall::Disassemble(words.first)),
        "explain" => explain(words),
        "rule" => compile(words),
        _ => None,
    }
}

/// The call of a command's name and of the words that follow it.
fn call_named<'a>(name: &str, words: Operands<'a>) -> Option<Call<'a>>
    ensures { IfSome result IsAccepted }
{
    match name {
        "batches" => Some(Call::List(Listing::Batches, words.first)),
        "recheck" => Some(Call::Recheck(words.first)),
        "records" => Some(Call::List(Listing::Records, words.first)),
        "run" => Some(Call::Run(words.first)),
        _ => Some(Call::Image(image_call(name, words)?)),
    }
}

/// The call of a command's name that no word follows.
fn call_alone<'a>(name: &str) -> Option<Call<'a>>
    ensures { IfSome result IsAccepted }
{
    match name {
        "commands" => Some(Call::Commands),
        "version" => Some(Call::Version),
        _ => None,
    }
}

/// The words that follow a command's name, if a word does.
fn read_words<'a>(words: &ArgMatches<'a>) -> Option<Operands<'a>> {
    let first = words.get_str("first")?;
    Some(Operands {
        first,
        second: words.get_str("second"),
        third: words.get_str("third"),
    })
}

/// The call that matches ask for, if they ask for one.
fn asked<'a>(matches: &ArgMatches<'a>) -> Option<Call<'a>>
    ensures { IfSome result IsAccepted }
{
    let (name, words) = matches.subcommand()?;
    match read_words(words) {
        Some(words) => call_named(name, words),
        None => call_alone(name),
    }
}

fn misuse_of(error: &clap::Error) -> Misuse {
    match error.kind() {
        ErrorKind::OutOfMemory => Misuse::Memory,
        _ => Misuse::Usage,
    }
}

/// The call of any command but `transform`.
fn parsed(alloc: Global, words: &[String]) -> Result<Call<'_>, Misuse>
    ensures { IfOk result IsAccepted }
{
    let klog = program(alloc)?;
    match klog.try_get_matches_from(words) {
        Ok(matches) => asked(&matches).ok_or(Misuse::Usage),
        Err(error) => Err(misuse_of(&error)),
    }
}

/// The call that the words ask for.
pub fn call_of(alloc: Global, words: &[String]) -> Result<Call<'_>, Misuse>
    ensures { IfOk result IsAccepted }
{
    if words.iter().any(|word| is_option(word.as_str())) {
        return Err(Misuse::Usage);
    }
    if let Some(transform) = transform_of(words) {
        return transform;
    }
    parsed(alloc, words)
}
