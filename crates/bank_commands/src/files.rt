//! A command over the files of a bank. **Not verified, review by hand**: no clause ties a connection to the path that it
//! was opened at, and none can name a closed file, so that the contract says only how a command ends and what it prints. All that is done with the bank is done by [`command_over`].
ghost use Rattle.std.specs.Prelude.{◌≡◌, false, IfSome, IsTrue};
ghost use Rattle.counter_http.specs.Connections.{known_ends};
ghost use Rattle.command_line.specs.Lines.{usable_line};
ghost use Rattle.command_line.specs.CommandLine.{AreInRange, IsTaskInRange};
ghost use Rattle.bank_commands.specs.Commands.{TellsLine};
ghost use Rattle.bank_commands.specs.Doing.{TaskLeaves};
ghost use Rattle.bank_commands.specs.Running.{Leaves, PrintsNone, TaskTells, Tells};

use crate::command::command_over;
use crate::ended::Ended;
use crate::network::HostNetwork;
use crate::notes::Notes;
use crate::opened::tell_opened;
use crate::progress::Progress;
use crate::reasons::look_into;
use crate::reports::why_over;
use bank_files::{open, open_over};
use command_line::{
    Command, CommandFault, Plans, Status, Task, translate_replies, translate_sheet,
};
use posting_core::{Clock, Sink, Source, SystemClock};
use sqlite::{Connection, Error, ErrorCode, FileFrom, FileStore, Files, Start};
use sqlite_disk::Disk;
use std::alloc::Global;
use std::cell::Cell;
use std::fs::{self, File};
use std::io::{IsTerminal, Read};
use std::time::Instant;

/// The machine that a run is on, with its files, its network and its memory, and the notes of the run. Only this file reaches
/// them.
#[derive(Drop)]
pub struct Machine<'r, 'w, S> {
    rt: &'r HostRuntime,
    start: S,
    notes: &'r Notes<'w>,
}

impl<'r, 'w, S: Start> Machine<'r, 'w, S> {
    /// The machine of a program, of whose files `start` says what is known, and the notes of its run.
    pub fn new(rt: &'r HostRuntime, start: S, notes: &'r Notes<'w>) -> Machine<'r, 'w, S> {
        Machine { rt, start, notes }
    }

    /// Its memory.
    pub(crate) fn alloc(&self) -> Global {
        self.rt.alloc()
    }

    /// Notes what is to be done, for the line that says why it wasn't.
    pub(crate) fn note(&self, command: &Command<'w>) {
        self.notes.note_command(command);
    }
}

/// The plans and the sheets in files, by their paths.
#[derive(Drop)]
pub struct PlanFiles<'r> {
    rt: &'r HostRuntime,
}

impl<'r> PlanFiles<'r> {
    pub fn new(rt: &'r HostRuntime) -> PlanFiles<'r> {
        PlanFiles { rt }
    }
}

impl Plans for PlanFiles<'_> {
    type Plan = File;

    fn open_plan(&self, path: &str) -> Result<File, CommandFault> {
        match fs::open(self.rt, path) {
            Ok(file) => Ok(file),
            Err(error) => Err(CommandFault::of_plan_file(&error)),
        }
    }
}

/// Does the command, with the bank of its file if it has one.
pub(crate) fn command_in<S: Start, R: Source, W: Sink, K: Clock>(
    machine: Machine<'_, '_, S>,
    command: &Command<'_>,
    input: &mut R,
    output: &mut W,
    clock: &mut K,
) -> Result<Status, CommandFault>
    requires { AreInRange command.now }
    ensures tells { Tells command.now (known_ends R.remaining R.calls R.beside W.contents W.calls (input.old, output.old))
        (known_ends R.remaining R.calls R.beside W.contents W.calls (input.new, output.new)) result }
    ensures leaves { Leaves command.now
        (known_ends R.remaining R.calls R.beside W.contents W.calls (input.old, output.old))
        (known_ends R.remaining R.calls R.beside W.contents W.calls (input.new, output.new))
        (K.readings clock.old) (K.readings clock.new) }
{
    let (rt, notes) = (machine.rt, machine.notes);
    match command {
        Command::OnFile { file, task } => {
            notes.of_end(task_in(machine, file, task, input, output, clock))
        }
        Command::Why { file } => notes.of_end(why_in(rt, file, output)),
        Command::Encode => notes.of_sheet(translate_sheet(rt.alloc(), input, output)),
        Command::Decode { money, sheet } => {
            let files = PlanFiles::new(rt);
            let end = translate_replies(rt.alloc(), *money, &files, *sheet, input, output);
            notes.of_sheet(end)
        }
        Command::Mistaken(fault) => Err(CommandFault::Query(*fault)),
    }
}

// Does the task with the bank of a file: all but `init` are to find one there.
fn task_in<S: Start, R: Source, W: Sink, K: Clock>(
    machine: Machine<'_, '_, S>,
    file: &str,
    task: &Task<'_>,
    input: &mut R,
    output: &mut W,
    clock: &mut K,
) -> Result<Status, CommandFault>
    requires { IsTaskInRange task.now }
    ensures tells { TaskTells task.now (known_ends R.remaining R.calls R.beside W.contents W.calls (input.old, output.old))
        (known_ends R.remaining R.calls R.beside W.contents W.calls (input.new, output.new)) result }
    ensures leaves { TaskLeaves task.now
        (known_ends R.remaining R.calls R.beside W.contents W.calls (input.old, output.old))
        (known_ends R.remaining R.calls R.beside W.contents W.calls (input.new, output.new))
        (K.readings clock.old) (K.readings clock.new) }
{
    let Machine { rt, start, notes } = machine;
    if !matches!(task, Task::Init) {
        look_for(rt, file)?;
    }
    spare_others(rt, file)?;
    let begun = Instant::now(rt).ok();
    let Some(mut conn) = opened(rt, file, start, &notes.is_full) else {
        return Err(CommandFault::Store);
    };
    tell_opened(rt, task, file, &mut conn, begun);
    let watch = Progress::new(rt.stderr(), rt.stderr().is_terminal(), SystemClock::new(rt));
    let Ended { end, conn } = command_over(
        rt.alloc(),
        conn,
        task,
        &PlanFiles::new(rt),
        &HostNetwork::new(rt),
        watch,
        input,
        output,
        clock,
    );
    close(conn, &notes.is_full);
    end
}

// The connection to a file; none where it can't be opened, with a note if the disk is full.
fn opened<S: Start>(
    rt: &HostRuntime,
    file: &str,
    start: S,
    is_full: &Cell<bool>,
) -> Option<Connection<FileStore<FileFrom<S>>>>
    ensures { IfSome result (λ conn. conn.in_transaction ≡ false) }
{
    match open(rt, file, start) {
        Ok(conn) => Some(conn),
        Err((error, _)) => {
            is_full.set(error == Error::SqliteFailure(ErrorCode::DiskFull));
            None
        }
    }
}

// Closes the files, with a note if a write found no room. What was committed is kept even if this fails, so that no
// fault is reported.
fn close<S: Start>(conn: Connection<FileStore<FileFrom<S>>>, is_full: &Cell<bool>) {
    let tally = match conn.close_files() {
        Ok(files) => files.tally(),
        Err((_, store)) => store.close().tally(),
    };
    is_full.set(tally.refused > 0);
}

// Says whether the file's bank can be used, and changes no file.
fn why_in<W: Sink>(rt: &HostRuntime, file: &str, output: &mut W) -> Result<Status, CommandFault>
    ensures { PrintsNone (W.contents output.old) (W.contents output.new) result
        (TellsLine (W.contents output.old) (W.contents output.new) usable_line result) }
{
    look_for(rt, file)?;
    match look_into(rt, file) {
        Ok(files) => why_at(rt.alloc(), files, output),
        Err(_) => Err(CommandFault::Store),
    }
}

// Says whether the bank in files can be used. That they lie on any disk keeps the proof short.
fn why_at<D: Disk + Drop, W: Sink>(
    alloc: Global,
    files: Files<D>,
    output: &mut W,
) -> Result<Status, CommandFault>
    requires log { IsTrue (D.Disk.is_usable files.log) }
    requires db { IsTrue (D.Disk.is_usable files.db) }
    ensures { PrintsNone (W.contents output.old) (W.contents output.new) result
        (TellsLine (W.contents output.old) (W.contents output.new) usable_line result) }
{
    match open_over(alloc, files, 0) {
        Ok(conn) => why_over(alloc, conn, output).end,
        Err(_) => Err(CommandFault::Store),
    }
}

// Looks whether a bank can be in the file: it holds more than a byte, or there is a log beside it that holds
// something. An open would make a database of any other.
fn look_for(rt: &HostRuntime, file: &str) -> Result<(), CommandFault> {
    if length_of(rt, file)? > 1 {
        return Ok(());
    }
    let Ok(log) = format!(in rt.alloc(); "{file}-wal") else {
        return Err(CommandFault::Memory);
    };
    if length_of(rt, log.as_str())? > 0 {
        return Ok(());
    }
    Err(CommandFault::NoBank)
}

// Looks whether the file can hold a database: one of more than a byte, with no log, begins as such. An open would put a
// log beside any other.
fn spare_others(rt: &HostRuntime, file: &str) -> Result<(), CommandFault> {
    let Ok(log) = format!(in rt.alloc(); "{file}-wal") else {
        return Err(CommandFault::Memory);
    };
    let (Ok(found), Err(_)) = (fs::metadata(rt, file), fs::metadata(rt, log.as_str())) else {
        return Ok(());
    };
    if found.len() > 1 && !begins_as_database(rt, file) {
        return Err(CommandFault::Store);
    }
    Ok(())
}

fn begins_as_database(rt: &HostRuntime, file: &str) -> bool {
    let mut first = [0u8; 16];
    match fs::open(rt, file) {
        Ok(mut file) => file.read_exact(&mut first).is_ok() && first == *b"SQLite format 3\0",
        Err(_) => false,
    }
}

// The length of a file that is there.
fn length_of(rt: &HostRuntime, path: &str) -> Result<u64, CommandFault> {
    match fs::metadata(rt, path) {
        Ok(found) => Ok(found.len()),
        Err(error) => Err(CommandFault::of_look(&error)),
    }
}
