//! The batches that `append` appends, and the receipts of what lines append.

ghost use Rattle.std.specs.Prelude.{◌≡◌, ◌<◌, ◌++◌, [], ◌∷◌, vec_len, vec_capacity, Some, IfSome, OnOk, IfErr, true};
ghost use Rattle.std.specs.Io.KnownBytes.{Appends};
ghost use Rattle.log_spec.specs.Logs.{is_closed};
ghost use Rattle.commands.specs.declared.stop.Stop.TheVariants as stop;
ghost use Rattle.commands.specs.Appends.{append_lines, bytes_of, unread_of, AppendsOf};
ghost use Rattle.commands.specs.Sessions.{EndsAs, Shows, ShowsWhy, input_of};
ghost use Rattle.commands.specs.Stops.{IsUnread, IsUnwritten};

use crate::files::Files;
use crate::printing::print_line;
use crate::reading::cause_of;
use crate::stop::{Stop, end_of_stream, stop_of_unread};
use broker::{Broker, BrokerFault};
use part_log::{LogFault, Names, Receipt, Trail};
use script::{Command, FileName, FileWord, append_text};
use std::alloc::Global;
use std::io::{Read, Write};
use std::sync::Wait;
use wire_spec::MAX_PIECE;

/// An input partition of a broker, and what an append to it takes.
#[derive(Drop)]
pub struct Target<'a, Id: Names, C, W> {
    pub rt: &'a W,
    pub alloc: Global,
    pub broker: &'a Broker<Id, C>,
    pub input: u64,
}

/// Appends the batches of a command's bytes.
pub fn append_source<Id: Names, C, W: Wait, F: Files>(
    target: &Target<'_, Id, C, W>,
    files: &mut F,
    source: FileWord,
    receipts: &mut Vec<Receipt<Id>>,
) -> Result<(), Stop>
    ensures { AppendsOf target.now.broker.now target.now.input (bytes_of (F.bytes files.old) source) (unread_of source) receipts.old.items receipts.new.items result }
{
    match source {
        FileWord::Line(bytes) => append_bytes(target, &bytes, receipts),
        FileWord::File(name) => append_file(target, files, name, receipts),
    }
}

fn append_bytes<Id: Names, C, W: Wait>(
    target: &Target<'_, Id, C, W>,
    bytes: &[u8],
    receipts: &mut Vec<Receipt<Id>>,
) -> Result<(), Stop>
    ensures { AppendsOf target.now.broker.now target.now.input (Some bytes.now) stop.Memory receipts.old.items receipts.new.items result }
{
    let mut reader = bytes;
    append_from(target, &mut reader, Stop::Memory, receipts)
}

/// The file is opened before its input partition is looked for, and read after it.
#[tactic(auto, using(crate::proofs::AppendLaws::unopened))]
fn append_file<Id: Names, C, W: Wait, F: Files>(
    target: &Target<'_, Id, C, W>,
    files: &mut F,
    name: FileName,
    receipts: &mut Vec<Receipt<Id>>,
) -> Result<(), Stop>
    ensures { AppendsOf target.now.broker.now target.now.input (F.bytes files.old name) (stop.File name) receipts.old.items receipts.new.items result }
{
    match files.open(name.text.as_str()) {
        Err(error) => Err(stop_of_unread(name, cause_of(&error))),
        Ok(mut reader) => append_from(target, &mut reader, Stop::File(name), receipts),
    }
}

/// Appends the batches of a reader's bytes, of which at most `MAX_PIECE` are read at once.
fn append_from<Id: Names, C, W: Wait, R: Read>(
    target: &Target<'_, Id, C, W>,
    reader: &mut R,
    unread: Stop,
    receipts: &mut Vec<Receipt<Id>>,
) -> Result<(), Stop>
    requires { IsUnread unread }
    ensures { AppendsOf target.now.broker.now target.now.input (R.remaining reader.old) unread receipts.old.items receipts.new.items result }
{
    let Target {
        rt,
        alloc,
        broker,
        input,
    } = target;
    let appended = broker.append_from(*rt, *alloc, *input as usize, reader, MAX_PIECE, receipts);
    end_of_stream(appended, unread)
}

/// Prints the lines of appended batches.
pub fn print_appended<Id: Names, O: Write>(
    alloc: Global,
    stdout: &mut O,
    input: u64,
    receipts: &[Receipt<Id>],
) -> Result<(), Stop>
    ensures ok { OnOk result (Appends (O.contents stdout.old) (O.contents stdout.new) (append_lines input receipts.now)) }
    ensures err { IfErr result IsUnwritten }
{
    for receipt in receipts {
        let line = append_text(alloc, input, receipt.index(), receipt.base());
        print_line(stdout, line)?;
    }
    Ok(())
}

/// Makes room for one more receipt.
pub fn make_room<Id: Names>(receipts: &mut Vec<Receipt<Id>>) -> Result<(), Stop>
    ensures same { receipts.new.items ≡ receipts.old.items }
    ensures ok { OnOk result (vec_len receipts.new < vec_capacity receipts.new) }
    ensures err { IfErr result (λ reason. reason ≡ stop.Memory) }
{
    match receipts.reserve(1) {
        Ok(()) => Ok(()),
        Err(_) => Err(Stop::Memory),
    }
}

/// Puts a receipt at the end of a list that has room for it.
pub fn add<Id: Names>(receipts: &mut Vec<Receipt<Id>>, receipt: Receipt<Id>)
    requires { vec_len receipts.old < vec_capacity receipts.old }
    ensures { receipts.new.items ≡ receipts.old.items ++ receipt ∷ [] }
{
    match receipts.push(receipt) {
        Ok(()) => {}
        Err(_) => unreachable!(),
    }
}

/// The input partition to whose log a command appends, if it appends to one.
pub fn input_of(command: &Command) -> Option<u64>
    ensures { result ≡ input_of command.now }
{
    match command {
        Command::Deploy(input, _) => Some(*input),
        Command::Put(input, ..) => Some(*input),
        Command::Append(input, _) => Some(*input),
        Command::Close(input) => Some(*input),
        Command::Partitions(..) | Command::Load(..) | Command::Fetch(..) | Command::Go => None,
    }
}

/// How a line ends whose command ended so. Where a log refuses the item that it appends, the trail that
/// shows why is kept; were there none, the refusal would clash with the log.
pub fn shown<Id: Names, C, W: Wait>(
    rt: &W,
    broker: &Broker<Id, C>,
    input: Option<u64>,
    done: Result<(), Stop>,
    refusing: &mut Option<Trail<Id>>,
) -> Result<(), Stop>
    ensures ends { EndsAs input done result }
    ensures why { ShowsWhy Id.cells refusing.new input result }
{
    match (input, done) {
        (Some(input), Err(Stop::Broker(BrokerFault::Log(fault)))) => {
            let fault = match shown_by(rt, broker, input, fault) {
                None => LogFault::Clash,
                Some(trail) => {
                    *refusing = Some(trail);
                    fault
                }
            };
            Err(Stop::Broker(BrokerFault::Log(fault)))
        }
        (_, done) => done,
    }
}

/// The trail of a log, if it shows why the log refuses an item.
fn shown_by<Id: Names, C, W: Wait>(
    rt: &W,
    broker: &Broker<Id, C>,
    input: u64,
    fault: LogFault,
) -> Option<Trail<Id>>
    ensures { IfSome result (λ log. (log.partition ≡ input) × Shows Id.cells log fault) }
{
    match broker.trail(rt, input as usize) {
        Ok(trail) => {
            if shows(broker, &trail, fault) {
                Some(trail)
            } else {
                None
            }
        }
        Err(_) => None,
    }
}

/// Whether the trail of a log shows why it refuses an item: it is full, or ends with the log's end.
fn shows<Id: Names, C>(broker: &Broker<Id, C>, trail: &Trail<Id>, fault: LogFault) -> bool
    requires { trail.now.partition < broker.now }
    ensures { result ≡ true → Shows Id.cells trail.now fault }
{
    match fault {
        LogFault::Full => trail.len() == broker.cells(trail.partition()),
        LogFault::Closed => has_end(broker, trail),
        LogFault::Clash | LogFault::Memory => false,
    }
}

/// Whether the last item of a trail is the end of its log.
fn has_end<Id: Names, C>(broker: &Broker<Id, C>, trail: &Trail<Id>) -> bool
    requires { trail.now.partition < broker.now }
    ensures { result ≡ true → is_closed trail.now.items ≡ true }
{
    if trail.is_empty() {
        return false;
    }
    let last = trail.len() - 1;
    let mut note = trail.note(last);
    match broker.read(trail.partition(), last, &mut note) {
        Some(item) => item.is_end(),
        None => false,
    }
}
