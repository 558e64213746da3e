//! The commands whose words clap reads.

use clap::{Arg, ArgAction, Command};
use std::alloc::{AllocError, Global};

/// How many words follow a command's name.
struct Form {
    name: &'static str,
    least: usize,
    most: usize,
}

/// All commands but `transform`.
static FORMS: [Form; 11] = [
    Form {
        name: "asm",
        least: 2,
        most: 2,
    },
    Form {
        name: "batches",
        least: 1,
        most: 1,
    },
    Form {
        name: "check",
        least: 1,
        most: 2,
    },
    Form {
        name: "commands",
        least: 0,
        most: 0,
    },
    Form {
        name: "dis",
        least: 1,
        most: 1,
    },
    Form {
        name: "explain",
        least: 1,
        most: 3,
    },
    Form {
        name: "recheck",
        least: 1,
        most: 1,
    },
    Form {
        name: "records",
        least: 1,
        most: 1,
    },
    Form {
        name: "rule",
        least: 2,
        most: 2,
    },
    Form {
        name: "run",
        least: 1,
        most: 1,
    },
    Form {
        name: "version",
        least: 0,
        most: 0,
    },
];

/// The names of the words that follow.
static PLACES: [&str; 3] = ["first", "second", "third"];

/// A word that follows.
fn argument<'a>(alloc: Global, name: &'a str, is_needed: bool) -> Arg<'a> {
    Arg::new(alloc, name)
        .required(is_needed)
        .action(ArgAction::Set)
}

/// A command with its words.
fn command_of<'a>(alloc: Global, form: &Form) -> Result<Command<'a>, AllocError> {
    let mut command = Command::new(alloc, form.name);
    for place in 0..PLACES.len() {
        if place < form.most {
            command = command.arg(argument(alloc, PLACES[place], place < form.least))?;
        }
    }
    Ok(command)
}

/// A program with one more command.
fn with_command<'a>(
    klog: Command<'a>,
    command: Result<Command<'a>, AllocError>,
) -> Result<Command<'a>, AllocError> {
    klog.subcommand(command?)
}

/// The program with all commands.
pub(crate) fn program<'a>(alloc: Global) -> Result<Command<'a>, AllocError> {
    let mut klog = Command::new(alloc, "klog").no_binary_name(true);
    for form in &FORMS {
        klog = with_command(klog, command_of(alloc, form))?;
    }
    Ok(klog)
}
