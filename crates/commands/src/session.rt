//! The commands of a script after its first, one after the other.

ghost use Rattle.std.specs.Prelude.{◌≡◌, ◌<◌, ◌≤◌, ◌⊎◌, [], None, Some, Err, OnOk, OnErr, IfOk, IfErr, IsSome, is_some, length, true, string_bytes};
ghost use Rattle.machine_spec.specs.Image.{program_of};
ghost use Rattle.script.specs.Commands.{command_of};
ghost use Rattle.script.specs.Faults.{fault_of, text_size, is_in_range};
ghost use Rattle.broker.specs.{Deployments.LoadIs, Deployments.IsNoReader, Layouts.IsNamed};
ghost use Rattle.broker.specs.declared.fault.BrokerFault.TheVariants.{Partition};
ghost use Rattle.commands.specs.declared.stop.Stop.TheVariants as stop;
ghost use Rattle.commands.specs.Appends.{unread_of, AppendDoes};
ghost use Rattle.commands.specs.Given.{AreBytesIn};
ghost use Rattle.commands.specs.Puts.{put_batch};
ghost use Rattle.commands.specs.Sessions.{IsMark, IsMarkFault, Learns, Loads, LoadDoes, DeployDoes, PutDoes, CloseDoes, FetchDoes, GoDoes, Does, LineDoes, ShowsWhy, is_loaded, known_of, setting, state, target_of};
ghost use Rattle.commands.specs.Stops.{EndsFor};

use crate::appending::{Target, add, append_source, input_of, make_room, print_appended, shown};
use crate::batches::{Put, batch_of};
use crate::files::Files;
use crate::image::read_image;
use crate::printing::{print, print_line};
use crate::reading::shared;
use crate::stop::{Stop, end_of_all, stop_of_unread};
use broker::{Broker, BrokerFault, Parts, Until};
use bytes::Bytes;
use catalogue::{Catalogue, Finder, Known};
use log_spec::RawName;
use machine_spec::Table;
use part_log::{Names, Receipt, Trail};
use program_file::given_program;
use report::gather;
use script::{
    Command, FileWord, ScriptFault, append_text, close_text, deploy_text, fetch_text, first_fault,
    load_text, parse,
};
use std::alloc::{AllocError, Global};
use std::collections::BTreeMap;
use std::io::Write;
use std::marker::Model;
use std::sync::Wait;
use std::thread::Threads;
use wire_spec::{MAX_KEY, MAX_VALUE, TIMESTAMP_END};
use worker::Open;

/// What a script works on once `partitions` made it: its broker, the finder that its first `deploy`
/// made, what is known of each name that it loaded, and the trail of a log that refused an item.
/// Contracts see its number of input partitions, the known versions by their names, and the trail.
#[derive(Drop)]
pub struct Session<'a, Id: Names, R: Wait> {
    rt: &'a R,
    alloc: Global,
    broker: Broker<Id, Catalogue<&'a R>>,
    finder: Option<Finder>,
    loaded: BTreeMap<String, Known>,
    refusing: Option<Trail<Id>>,
}

impl<'a, Id: Names, R: Wait> Model for Session<'a, Id, R> {
    ghost use Rattle.std.specs.Prelude.{◌≡◌};
    ghost use Rattle.commands.specs.Sessions.{Running, session_of, by_text, AreOfNames};

    ghost Value = { Running };

    ghost view = { λ s. session_of s.broker (by_text s.loaded.entries) s.refusing };

    ghost invariant = { λ s. (s.broker ≡ Id.inputs) × AreOfNames (by_text s.loaded.entries) };
}

impl<'a, Id: Names + Send + Sync, R: Threads + Wait + Sync> Session<'a, Id, R> {
    /// Empty logs and books, and no program.
    pub fn new(
        rt: &'a R,
        alloc: Global,
        parts: Parts<Catalogue<&'a R>>,
    ) -> Result<Session<'a, Id, R>, AllocError>
        requires { IsNamed Id.cells Id.inputs Id.outputs parts }
        ensures inputs { IfOk result (λ session. session.script.inputs ≡ length parts.entry.cells) }
        ensures none { IfOk result (λ session. session.script.loaded ≡ []) }
    {
        Ok(Session {
            rt,
            alloc,
            broker: Broker::new(alloc, parts)?,
            finder: None,
            loaded: BTreeMap::new(alloc),
            refusing: None,
        })
    }

    /// Whether anything is known of a name.
    fn has(&self, name: &RawName) -> bool
        ensures { result ≡ is_some (known_of self.now.script.loaded name.now) }
    {
        self.loaded.contains_key(name.text.as_str())
    }

    /// What is known of a name.
    fn known(&self, name: &RawName) -> &Known
        requires { IsSome (known_of self.now.script.loaded name.now) }
        ensures found { known_of self.now.script.loaded name.now ≡ Some result.now }
        ensures named { result.now.name ≡ name.now }
    {
        let Some(known) = self.loaded.get(name.text.as_str()) else {
            unreachable!()
        };
        known
    }

    /// Whether the script loaded the program that the command deploys, if it deploys one.
    fn is_loaded(&self, command: &Command) -> bool
        ensures { result ≡ is_loaded self.now.script.loaded command.now }
    {
        match command {
            Command::Deploy(_, name) => self.has(name),
            Command::Partitions(..)
            | Command::Load(..)
            | Command::Put(..)
            | Command::Append(..)
            | Command::Close(_)
            | Command::Fetch(..)
            | Command::Go => true,
        }
    }

    /// Whether there is such an input partition is asked before anything is read for it.
    fn known_input(&self, input: u64) -> Result<(), Stop>
        ensures ok { OnOk result (input < self.now.script.inputs) }
        ensures err { IfErr result (λ reported. (self.now.script.inputs ≤ input) × (reported ≡ stop.Broker Partition)) }
    {
        if input < self.broker.inputs() as u64 {
            Ok(())
        } else {
            Err(Stop::Broker(BrokerFault::Partition))
        }
    }

    /// The bytes of the program that a command names.
    #[tactic(auto, using(crate::proofs::StopLaws::unread_is))]
    fn image<F: Files>(&self, files: &mut F, source: FileWord) -> Result<Bytes, Stop>
        ensures read { IfOk result (AreBytesIn (F.bytes files.old) source) }
        ensures failed { IfErr result (λ reason. (reason ≡ stop.Memory) ⊎ (reason ≡ unread_of source)) }
    {
        match source {
            FileWord::Line(image) => Ok(image),
            FileWord::File(name) => match read_image(self.alloc, files, name.text.as_str()) {
                Err(cause) => Err(stop_of_unread(name, cause)),
                Ok(bytes) => Ok(shared(bytes)?),
            },
        }
    }

    /// Keeps what is known of a name.
    fn keep(&mut self, name: RawName, known: Known) -> Result<(), Stop>
        requires { known.name ≡ name }
        ensures kept { OnOk result (Learns known self.old.script self.new.script) }
        ensures failed { IfErr result (λ reason. (reason ≡ stop.Memory) × (self.new ≡ self.old)) }
    {
        match self.loaded.insert(name.text, known) {
            Ok(_) => Ok(()),
            Err(_) => Err(Stop::Memory),
        }
    }

    /// Loads an image under a name, as a program of a helper table, and keeps what is known of the name
    /// then. Returns the line that says its version.
    #[tactic(auto, using(crate::proofs::Loaded::of_load, crate::proofs::Loaded::loads))]
    fn load(&mut self, name: RawName, image: &Bytes, table: Table) -> Result<String, Stop>
        ensures loaded { IfOk result (λ line. Loads name image.now table self.old.script self.new.script (string_bytes line)) }
        ensures failed { IfErr result (λ reason. (self.new ≡ self.old)
            × ((reason ≡ stop.Memory) ⊎ EndsFor (λ fault. LoadIs name (program_of image.now table) (Err fault)) reason)) }
    {
        let text = name.text.as_str();
        let (version, known) = self.broker.load(self.rt, self.alloc, text, image, table)?;
        let line = load_text(self.alloc, text, version)?;
        self.keep(name, known)?;
        Ok(line)
    }

    /// Loads the program that a command names, and prints its line once what is known of it is kept.
    #[tactic(auto, using(crate::proofs::GivenLaws::not_given))]
    fn load_source<F: Files, O: Write>(
        &mut self,
        files: &mut F,
        stdout: &mut O,
        name: RawName,
        source: FileWord,
        named: Option<Table>,
    ) -> Result<(), Stop>
        ensures { LoadDoes (F.bytes files.old) name source named self.old.script self.new.script (O.contents stdout.old) (O.contents stdout.new) result }
    {
        let bytes = self.image(files, source)?;
        let given = given_program(self.alloc, named, bytes)?;
        let line = self.load(name, &given.image, given.table)?;
        print(stdout, line.as_str())
    }

    /// The finder of the session, for whoever takes it to give it back. The first call makes it.
    fn taken_finder(&mut self) -> Result<Finder, Stop>
        ensures same { self.new ≡ self.old }
        ensures err { IfErr result (EndsFor IsNoReader) }
    {
        match self.finder.take() {
            Some(finder) => Ok(finder),
            None => Ok(self.broker.finder(self.rt, self.alloc)?),
        }
    }

    /// Appends the mark of a loaded name.
    #[tactic(auto, using(crate::proofs::Marks::deployed, crate::proofs::Marks::not_deployed, crate::proofs::Marks::no_finder))]
    fn mark(&mut self, input: u64, name: &RawName) -> Result<(Receipt<Id>, u32), Stop>
        requires there { input < self.old.script.inputs }
        requires known { IsSome (known_of self.old.script.loaded name.now) }
        ensures same { self.new ≡ self.old }
        ensures ok { IfOk result (λ marked. IsMark input name.now marked.1 marked.0) }
        ensures err { IfErr result (EndsFor (IsMarkFault self.old.script.inputs input name.now (known_of self.old.script.loaded name.now))) }
    {
        let mut finder = self.taken_finder()?;
        let known = self.known(name);
        let marked = self.broker.deploy(
            self.rt,
            self.alloc,
            input as usize,
            known.name(),
            &mut finder,
            known,
        );
        self.finder = Some(finder);
        Ok(marked?)
    }

    /// Deploys a loaded name, and prints where its mark is.
    fn deploy<O: Write>(
        &mut self,
        stdout: &mut O,
        input: u64,
        name: RawName,
        receipts: &mut Vec<Receipt<Id>>,
    ) -> Result<(), Stop>
        requires { IsSome (known_of self.old.script.loaded name) }
        ensures same { self.new ≡ self.old }
        ensures does { DeployDoes self.old.script.inputs input name (known_of self.old.script.loaded name) receipts.old.items receipts.new.items (O.contents stdout.old) (O.contents stdout.new) result }
    {
        self.known_input(input)?;
        make_room(receipts)?;
        let (receipt, version) = self.mark(input, &name)?;
        let text = name.text.as_str();
        let line = deploy_text(self.alloc, input, receipt.index(), text, version);
        add(receipts, receipt);
        print_line(stdout, line)
    }

    /// Appends a record, and prints where it is.
    fn put<O: Write>(
        &self,
        stdout: &mut O,
        input: u64,
        put: Put,
        receipts: &mut Vec<Receipt<Id>>,
    ) -> Result<(), Stop>
        requires timestamp { put.timestamp < TIMESTAMP_END }
        requires key { text_size put.key ≤ MAX_KEY }
        requires value { text_size put.value ≤ MAX_VALUE }
        ensures { PutDoes self.now.script.inputs input (put_batch put.timestamp put.key put.value) receipts.old.items receipts.new.items (O.contents stdout.old) (O.contents stdout.new) result }
    {
        make_room(receipts)?;
        let batch = batch_of(self.alloc, put)?;
        let receipt = self
            .broker
            .append(self.rt, self.alloc, input as usize, batch)?;
        let line = append_text(self.alloc, input, receipt.index(), receipt.base());
        add(receipts, receipt);
        print_line(stdout, line)
    }

    /// Closes a log, and prints where its end is.
    fn close<O: Write>(
        &self,
        stdout: &mut O,
        input: u64,
        receipts: &mut Vec<Receipt<Id>>,
    ) -> Result<(), Stop>
        ensures { CloseDoes self.now.script.inputs input receipts.old.items receipts.new.items (O.contents stdout.old) (O.contents stdout.new) result }
    {
        make_room(receipts)?;
        let receipt = self.broker.close(self.rt, self.alloc, input as usize)?;
        let line = close_text(self.alloc, input, receipt.index());
        add(receipts, receipt);
        print_line(stdout, line)
    }

    /// Appends the batches of a command's bytes, and prints a line for each, also for those before a
    /// fault.
    fn append<F: Files, O: Write>(
        &self,
        files: &mut F,
        stdout: &mut O,
        input: u64,
        source: FileWord,
        receipts: &mut Vec<Receipt<Id>>,
    ) -> Result<(), Stop>
        ensures { AppendDoes self.now.script.inputs (F.bytes files.old) input source receipts.old.items receipts.new.items (O.contents stdout.old) (O.contents stdout.new) result }
    {
        let before = receipts.len();
        let target = Target {
            rt: self.rt,
            alloc: self.alloc,
            broker: &self.broker,
            input,
        };
        let appended = append_source(&target, files, source, receipts);
        print_appended(self.alloc, stdout, input, &receipts[before..])?;
        appended
    }

    /// Prints the rows of an output partition from a place on as one record batch, or `none`.
    #[tactic(auto, using(crate::proofs::Loaded::fetches, crate::proofs::Written::is_printed))]
    fn fetch<O: Write>(&self, stdout: &mut O, output: u64, place: u64, max: u64) -> Result<(), Stop>
        ensures { FetchDoes Id.cells self.now.script.inputs Id.outputs output place max (O.contents stdout.old) (O.contents stdout.new) result }
    {
        let found = self
            .broker
            .fetch(self.rt, output as usize, place as usize, max as usize)?;
        print_line(stdout, fetch_text(self.alloc, &found))
    }

    /// Runs the programs on every item that the logs have, then prints the report.
    #[tactic(auto, using(crate::proofs::Loaded::reports, crate::proofs::Written::has_begun, crate::proofs::StopLaws::unwritten_report))]
    fn go<O: Write>(&self, stdout: &mut O) -> Result<(), Stop>
        ensures { GoDoes self.now.script.inputs Id.outputs (O.contents stdout.old) (O.contents stdout.new) result }
    {
        let ended = self
            .broker
            .start(self.rt, self.alloc, Until::Drained, &Open)?;
        end_of_all(&ended)?;
        let snapshot = gather(self.rt, self.alloc, &self.broker)?;
        report::write(self.alloc, &snapshot, stdout)?;
        Ok(())
    }

    /// What a line asks for. The receipts of all that it appends are put at the end of the list, also
    /// before a fault. Where a log refuses an item, the session keeps the trail that shows why.
    #[tactic(auto, using(crate::proofs::ShownLaws::line_ends, crate::proofs::ShownLaws::shows_why, crate::proofs::ShownLaws::memory_shows, crate::proofs::ShownLaws::line_shows))]
    pub fn line<F: Files, O: Write>(
        &mut self,
        files: &mut F,
        stdout: &mut O,
        line: &str,
        receipts: &mut Vec<Receipt<Id>>,
    ) -> Result<(), Stop>
        ensures why { ShowsWhy Id.cells self.new.refusing (target_of (command_of line.now)) result }
        ensures does { LineDoes (setting Id.cells Id.outputs (F.bytes files.old)) (command_of line.now)
            (state self.old.script receipts.old.items (O.contents stdout.old)) (state self.new.script receipts.new.items (O.contents stdout.new)) result }
    {
        let Some(command) = parse(self.alloc, line)? else {
            return Err(Stop::Line(ScriptFault::Syntax));
        };
        let is_loaded = self.is_loaded(&command);
        if let Some(fault) = first_fault(&command, true, is_loaded) {
            return Err(Stop::Line(fault));
        }
        let input = input_of(&command);
        let done = self.act(files, stdout, command, receipts);
        shown(self.rt, &self.broker, input, done, &mut self.refusing)
    }

    /// What a command asks for that has no fault of its line.
    #[tactic(auto, using(crate::proofs::Said::is_known))]
    fn act<F: Files, O: Write>(
        &mut self,
        files: &mut F,
        stdout: &mut O,
        command: Command,
        receipts: &mut Vec<Receipt<Id>>,
    ) -> Result<(), Stop>
        requires range { is_in_range command ≡ true }
        requires no_fault { fault_of command true (is_loaded self.old.script.loaded command) ≡ None }
        ensures { Does (setting Id.cells Id.outputs (F.bytes files.old)) command
            (state self.old.script receipts.old.items (O.contents stdout.old)) (state self.new.script receipts.new.items (O.contents stdout.new)) result }
    {
        match command {
            Command::Partitions(..) => unreachable!(),
            Command::Load(name, source, named) => {
                self.load_source(files, stdout, name, source, named)
            }
            Command::Deploy(input, name) => self.deploy(stdout, input, name, receipts),
            Command::Put(input, timestamp, key, value) => {
                let put = Put {
                    timestamp,
                    key,
                    value,
                };
                self.put(stdout, input, put, receipts)
            }
            Command::Append(input, source) => self.append(files, stdout, input, source, receipts),
            Command::Close(input) => self.close(stdout, input, receipts),
            Command::Fetch(output, place, max) => self.fetch(stdout, output, place, max),
            Command::Go => self.go(stdout),
        }
    }
}
