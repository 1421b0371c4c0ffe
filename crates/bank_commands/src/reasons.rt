//! Why a file can't be used as a bank's, as far as the system can tell. **Not verified, review by hand**: no clause says
//! what a machine answers. It writes to standard error alone, and changes no file: what a file holds is looked at in
//! copies of it and of its log, in memory.
ghost use Rattle.std.specs.Prelude.{IfOk, IsTrue};
ghost use Rattle.sqlite_disk.specs.Memory.{memory_is_usable};

use crate::notes::{Notes, found_in};
use bank_files::open_over;
use command_line::{CommandFault, Status};
use posting_sheets::BadRow;
use sqlite::{Error, Files, Unknown};
use sqlite_disk::{Disk, Memory};
use sqlite_std_file::OpenError;
use std::alloc::{AllocError, Global};
use std::fs::{self, Metadata, OpenOptions};
use std::io::{self, ErrorKind, IsTerminal, Write};
use std::os::fd::AsRawFd;
use std::os::unix::fs::MetadataExt;
use std::{env, fmt};

// The length of a log that holds no page.
const LOG_HEAD: u64 = 41;

/// What is wrong with a file.
#[derive(Drop)]
pub(crate) enum Reason {
    System(io::Error),
    Full,
    Missing,
    Folder,
    Names(u64),
    ReadOnly,
    ClosedFolder,
    NoDatabase,
    Encoding,
    AutoVacuum,
    OtherLog,
    Opening(OpenError),
    Database(Error),
}

impl From<io::Error> for Reason {
    fn from(error: io::Error) -> Reason {
        Reason::System(error)
    }
}

impl From<AllocError> for Reason {
    fn from(_: AllocError) -> Reason {
        Reason::Opening(OpenError::OutOfMemory)
    }
}

impl fmt::Display for Reason {
    fn fmt<W: fmt::Write>(&self, f: &mut fmt::Formatter<W>) -> fmt::Result {
        match self {
            Reason::System(error) => write!(f, "{error}"),
            Reason::Full => f.write_str("the disk is full"),
            Reason::Missing => f.write_str("it can't be made: look at its folder"),
            Reason::Folder => f.write_str("it is a folder"),
            Reason::Names(count) => write!(
                f,
                "it has {count} names (hard links), and may have one"
            ),
            Reason::ReadOnly => f.write_str(
                "it may only be read: copy it and its -wal, and read the copies",
            ),
            Reason::ClosedFolder => f.write_str(
                "its folder may not be written, and a log is kept beside it",
            ),
            Reason::NoDatabase => f.write_str("it is no SQLite database"),
            Reason::Encoding => f.write_str("it is a database in UTF-16"),
            Reason::AutoVacuum => f.write_str("it is a database with auto_vacuum"),
            Reason::OtherLog => f.write_str(
                "its -wal is another file's or damaged: without it the file opens, and may lack postings",
            ),
            Reason::Opening(error) => write!(f, "{error}"),
            Reason::Database(error) => write!(f, "{error}"),
        }
    }
}

/// After a run that its line doesn't explain, says more in a second line on standard error, if anybody asks, at a terminal
/// or by `BANK_WHY` in the environment. If a row of a sheet was refused, it says what stands there; after a store fault,
/// what is wrong with the command's file; after damage or a fault of the network, what to look at. `why` says it of its
/// file in any case.
pub fn tell_reason(rt: &HostRuntime, status: Status, notes: &Notes<'_>) {
    if let Some(bad) = notes.refused.get() {
        tell_row(rt, &bad);
    }
    if status == Status::System {
        tell_fault(rt, notes);
    }
}

fn tell_fault(rt: &HostRuntime, notes: &Notes<'_>) {
    if !notes.asks_why.get() && !is_asked(rt) {
        return;
    }
    match notes.fault.get() {
        Some(CommandFault::Network) => tell_address(rt, notes),
        Some(CommandFault::Damaged(_)) => tell_damage(rt, notes),
        Some(CommandFault::NoQuorum) => tell_member(rt),
        Some(CommandFault::Memory | CommandFault::Read | CommandFault::Write) => {}
        _ => tell_file(rt, notes),
    }
}

fn tell_address(rt: &HostRuntime, notes: &Notes<'_>) {
    if let Some(address) = notes.address.get() {
        let _ = writeln!(
            rt.stderr(),
            "bank: {address}: it is in use, isn't this machine's, or its port needs rights"
        );
    }
}

fn tell_member(rt: &HostRuntime) {
    let _ = writeln!(
        rt.stderr(),
        "bank: no member answers there, most members are away, or there is no log of that name"
    );
}

fn tell_damage(rt: &HostRuntime, notes: &Notes<'_>) {
    if let Some(file) = notes.file.get() {
        let _ = writeln!(
            rt.stderr(),
            "bank: {file}: its rows were changed by another hand: replay a copy, or restore a backup"
        );
    }
}

fn tell_row(rt: &HostRuntime, bad: &BadRow) {
    if !is_asked(rt) {
        return;
    }
    if let Some(found) = found_in(bad) {
        let _ = writeln!(rt.stderr(), "bank: found {found}");
    }
}

fn tell_file(rt: &HostRuntime, notes: &Notes<'_>) {
    let Some(file) = notes.file.get() else {
        return;
    };
    let mut faults = rt.stderr();
    let _ = match reason_of(rt, file, notes.is_full.get()) {
        None => writeln!(faults, "bank: {file}: it can be opened now"),
        Some(reason) => writeln!(faults, "bank: {file}: {reason}"),
    };
}

/// Whether more than a fault's line is wanted on standard error.
pub(crate) fn is_asked(rt: &HostRuntime) -> bool {
    rt.stderr().is_terminal() || env::var(rt, "BANK_WHY").is_ok()
}

fn reason_of(rt: &HostRuntime, file: &str, is_full: bool) -> Option<Reason> {
    if is_full {
        return Some(Reason::Full);
    }
    let files = match look_into(rt, file) {
        Ok(files) => files,
        Err(reason) => return Some(reason),
    };
    let error = error_of(rt.alloc(), files)?;
    if opens_alone(rt, file) {
        Some(Reason::OtherLog)
    } else {
        Some(Reason::Database(error))
    }
}

// Whether a file can be opened without its log.
fn opens_alone(rt: &HostRuntime, file: &str) -> bool {
    let Ok(db) = copy_of(rt, file) else {
        return false;
    };
    let log = Memory::new(rt.alloc());
    error_of(rt.alloc(), Files { log, db }).is_none()
}

// Why files aren't opened, if they aren't. That they lie on any disk keeps the proof short.
fn error_of<D: Disk + Drop>(alloc: Global, files: Files<D>) -> Option<Error>
    requires log { IsTrue (D.Disk.is_usable files.log) }
    requires db { IsTrue (D.Disk.is_usable files.db) }
{
    match open_over(alloc, files, 0) {
        Ok(_) => None,
        Err((error, _)) => Some(error),
    }
}

/// The file and its log, copied into memory, if nothing but the database in them can keep the file from being used.
pub(crate) fn look_into(rt: &HostRuntime, path: &str) -> Result<Files<Memory>, Reason>
    ensures log { IfOk result (λ files. IsTrue (memory_is_usable files.log)) }
    ensures db { IfOk result (λ files. IsTrue (memory_is_usable files.db)) }
{
    look_at(rt, path)?;
    let log = format!(in rt.alloc(); "{path}-wal")?;
    if length_of(rt, log.as_str())? <= LOG_HEAD {
        look_at_header(fs::read(rt, path)?.as_slice())?;
    }
    look_for_others(rt, path, log.as_str())?;
    copies(rt, path, log.as_str())
}

// What its entry in its folder tells.
fn look_at(rt: &HostRuntime, path: &str) -> Result<(), Reason> {
    let found: Metadata = match fs::metadata(rt, path) {
        Ok(found) => found,
        Err(error) if error.kind() == ErrorKind::NotFound => return Err(Reason::Missing),
        Err(error) => return Err(Reason::System(error)),
    };
    if found.is_dir() {
        return Err(Reason::Folder);
    }
    match found.nlink() {
        0 | 1 => Ok(()),
        count => Err(Reason::Names(count)),
    }
}

// The length of a file, which is 0 where there is none.
fn length_of(rt: &HostRuntime, path: &str) -> io::Result<u64> {
    match fs::metadata(rt, path) {
        Ok(found) => Ok(found.len()),
        Err(error) if error.kind() == ErrorKind::NotFound => Ok(0),
        Err(error) => Err(error),
    }
}

// What a file whose log holds no page begins with.
fn look_at_header(bytes: &[u8]) -> Result<(), Reason> {
    if bytes.len() < 100 || !bytes.starts_with(b"SQLite format 3\0") {
        Err(Reason::NoDatabase)
    } else if bytes[59] > 1 {
        Err(Reason::Encoding)
    } else if bytes[52..56] != [0, 0, 0, 0] {
        Err(Reason::AutoVacuum)
    } else {
        Ok(())
    }
}

// Whether it may be written, and nobody else has it open. Where its log is there, no file is made by an open.
fn look_for_others(rt: &HostRuntime, path: &str, log: &str) -> Result<(), Reason> {
    let file = match OpenOptions::new().read(true).write(true).open(rt, path) {
        Ok(file) => file,
        Err(error) => return Err(unwritable(error)),
    };
    if fs::metadata(rt, log).is_err() {
        look_at_folder(rt, path)?;
        return match os::try_lock_range(file.as_raw_fd(), os::RangeLock::Exclusive, 1 << 30, 512) {
            0 => Ok(()),
            _ => Err(Reason::Opening(OpenError::Busy)),
        };
    }
    match sqlite_std_file::open(rt, path, Unknown) {
        Ok(_) => Ok(()),
        Err(OpenError::Io(error)) => Err(unwritable(error)),
        Err(error) => Err(Reason::Opening(error)),
    }
}

// Whether a file can be made in its folder, as an open does: an empty one is made and removed.
fn look_at_folder(rt: &HostRuntime, path: &str) -> Result<(), Reason> {
    let probe = format!(in rt.alloc(); "{path}.why")?;
    match OpenOptions::new()
        .write(true)
        .create_new(true)
        .open(rt, probe.as_str())
    {
        Ok(_) => Ok(fs::remove_file(rt, probe.as_str())?),
        Err(error) if is_refused(&error) => Err(Reason::ClosedFolder),
        Err(_) => Ok(()),
    }
}

fn is_refused(error: &io::Error) -> bool {
    matches!(
        error.kind(),
        ErrorKind::PermissionDenied | ErrorKind::ReadOnlyFilesystem
    )
}

fn unwritable(error: io::Error) -> Reason {
    if is_refused(&error) {
        Reason::ReadOnly
    } else {
        Reason::System(error)
    }
}

// The file and its log, copied into memory.
fn copies(rt: &HostRuntime, path: &str, log: &str) -> Result<Files<Memory>, Reason>
    ensures log { IfOk result (λ files. IsTrue (memory_is_usable files.log)) }
    ensures db { IfOk result (λ files. IsTrue (memory_is_usable files.db)) }
{
    let log = if length_of(rt, log)? == 0 {
        Memory::new(rt.alloc())
    } else {
        copy_of(rt, log)?
    };
    Ok(Files {
        log,
        db: copy_of(rt, path)?,
    })
}

fn copy_of(rt: &HostRuntime, path: &str) -> Result<Memory, Reason>
    ensures { IfOk result (λ copy. IsTrue (memory_is_usable copy)) }
{
    let bytes = fs::read(rt, path)?;
    let mut copy = Memory::new(rt.alloc());
    copy.write_at(0, bytes.as_slice())?;
    copy.sync()?;
    Ok(copy)
}
