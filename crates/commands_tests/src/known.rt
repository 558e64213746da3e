//! Calls over a shelf, whose files have known bytes: what the commands promise of known bytes is met there.

ghost use Rattle.std.specs.Prelude.{Some, None, IfSome, codes};
ghost use Rattle.command_line.specs.Calls.{names_of};
ghost use Rattle.commands.specs.FileTransforms.{CallWrites};
ghost use Rattle.commands.specs.Rechecks.{RechecksAs};
ghost use Rattle.commands_tests.specs.Shelves.{bytes_in, left_of, with_file};

use crate::shelf::{BATCHES, FORWARD, Shelf, TestHost, host_of, input_of, shelf_of};
use commands::{Files, Status, recheck, transform};
use std::alloc::Global;
use std::test::*;

/// Puts a list on a shelf, and verifies the programs that it names anew; `None` where it can't be put.
fn recheck_list(host: &mut TestHost, list: &[u8]) -> Option<Status>
    ensures { IfSome result (λ status. RechecksAs (with_file (bytes_in host.old.files.files) (codes "list") list.now)
        list.now status (Some host.old.stdout.items) (Some host.new.stdout.items)) }
{
    match host.files.write("list", list) {
        Ok(()) => Some(recheck(host, "list")),
        Err(_) => None,
    }
}

/// Whether this is the status of a list, and this is printed of it.
fn is_rechecked(alloc: Global, list: &[u8], status: Status, printed: &[u8]) -> bool {
    let files = shelf_of(alloc, "forward.bin", &FORWARD);
    let (Some(files), Some(stdin)) = (files, input_of(alloc, &[])) else {
        return false;
    };
    let mut host = host_of(alloc, files, stdin);
    recheck_list(&mut host, list) == Some(status) && host.stdout.as_slice() == printed
}

#[test]
fn a_list_on_a_shelf_is_rechecked(rt: HostRuntime) {
    let printed = b"forward.bin accepted 3 instructions\n";
    assert!(rt; is_rechecked(rt.alloc(), b"forward.bin\n\n", Status::Refused, printed));
}

/// Runs a program on batches, with no helper table named. The words are the image, the batches and the file of the one
/// output partition.
fn transform_to(host: &mut TestHost, words: &[String; 3]) -> Status
    ensures { CallWrites None (names_of words.now) (left_of host.old.stdin) (bytes_in host.old.files.files)
        (bytes_in host.new.files.files) result }
{
    transform(host, None, words)
}

/// How many bytes a file has; 0 where it is not there.
fn len_of(files: &Shelf, name: &str) -> usize {
    match files.files.get(name) {
        Some(bytes) => bytes.len(),
        None => 0,
    }
}

/// Whether the rows of all batches are in the file.
fn is_transformed(alloc: Global, words: &[String; 3]) -> bool {
    let files = shelf_of(alloc, "forward.bin", &FORWARD);
    let (Some(files), Some(stdin)) = (files, input_of(alloc, &BATCHES)) else {
        return false;
    };
    let mut host = host_of(alloc, files, stdin);
    let status = transform_to(&mut host, words);
    status == Status::Done && len_of(&host.files, words[2].as_str()) == 202
}

/// The same with the names of the files.
fn is_transformed_out(alloc: Global) -> bool {
    match (
        String::from_str(alloc, "forward.bin"),
        String::from_str(alloc, "stdin"),
        String::from_str(alloc, "out"),
    ) {
        (Ok(image), Ok(batches), Ok(out)) => is_transformed(alloc, &[image, batches, out]),
        _ => false,
    }
}

#[test]
fn batches_go_through_a_program_onto_a_shelf(rt: HostRuntime) {
    assert!(rt; is_transformed_out(rt.alloc()));
}
