//! A connection over a bank's files.
ghost use Rattle.std.specs.Prelude.{◌<◌, ◌≤◌, true, false, IsTrue, IfErr, IfOk, IfSome};
ghost use Rattle.sqlite.specs.Files.{IsCleanLeft, faults_of, file_state, image_of};
ghost use Rattle.sqlite.specs.Held.{IsNew};
ghost use Rattle.sqlite.specs.Opening.{is_open_error};
ghost use Rattle.sqlite.specs.State.{HasCleanDisk};
ghost use Rattle.sqlite_pool.specs.Opening.{IsBlankFile};
ghost use Rattle.sqlite_std_file.specs.File.{file_is_usable, IsFresh};
ghost use Rattle.sqlite_wal.specs.Files.{image_at};
ghost use Rattle.sqlite_wal.specs.Reads.{AreClean, OnlyReads};
ghost use Rattle.bank_files.specs.Leftover.{FailsToOpen};
ghost use Rattle.bank_files.specs.Opening.{IsOpenedOn};

use crate::new_files::{PAGE_BYTES, are_blank, make_store};
use sqlite::{Connection, Error, ErrorCode, FileFrom, FileStore, Files, Leftover, Options, Start};
use sqlite_disk::Disk;
use sqlite_std_file::OpenError;
use sqlite_wal::probe_page_size;
use std::alloc::Global;
use std::hash::{BuildHasher, RandomState};

const CANNOT_OPEN: Error = Error::SqliteFailure(ErrorCode::CannotOpen);

/// How many bytes of pages are kept in memory, and how many that are written wait there.
const CACHE_BYTES: usize = 8_192_000;

/// How long the log grows before it is copied into the database, where a page of many commits is copied once.
const LOG_BYTES: usize = 16_384_000;

// How files with pages of so many bytes are held.
fn options(page_bytes: usize, seed: u64) -> Options
    requires { 0 < page_bytes }
{
    Options {
        cache_pages: CACHE_BYTES / page_bytes,
        spill_pages: CACHE_BYTES / page_bytes,
        checkpoint_frames: LOG_BYTES / page_bytes,
        seed,
    }
}

// How files are held that aren't blank, by their pages.
fn options_for<D: Disk>(files: &mut Files<D>, seed: u64) -> Options
    requires log { IsTrue (D.Disk.is_usable files.old.log) }
    requires db { IsTrue (D.Disk.is_usable files.old.db) }
    ensures log { OnlyReads D.Disk files.old.log files.new.log }
    ensures db { OnlyReads D.Disk files.old.db files.new.db }
    ensures counts { faults_of D.Disk files.old ≤ faults_of D.Disk files.new }
{
    match probe_page_size(files) {
        Ok(Some(size)) => options(size.bytes(), seed),
        _ => options(PAGE_BYTES, seed),
    }
}

// A connection over files that hold nothing yet, which get a database with no table.
fn make_over<D: Disk + Drop>(
    alloc: Global,
    files: Files<D>,
    options: Options,
) -> Result<Connection<FileStore<D>>, (Error, Leftover<D>)>
    requires log { IsTrue (D.Disk.is_usable files.log) }
    requires db { IsTrue (D.Disk.is_usable files.db) }
    requires blank { AreClean D.Disk files.log files.db → IsBlankFile PAGE_BYTES (image_of D.Disk files) }
    ensures fresh { IfOk result IsNew }
    ensures opened { IfOk result (λ conn. HasCleanDisk (file_state conn)
        → IsOpenedOn (image_of D.Disk files) (file_state conn)) }
    ensures failed { IfErr result (λ e. IsCleanLeft e.1 → FailsToOpen files e) }
    ensures named { IfErr result (λ e. IsTrue (is_open_error e.0)) }
{
    let store = make_store(alloc, files, options)?;
    match Connection::over(alloc, store) {
        Ok(conn) => Ok(conn),
        Err((error, store)) => Err((error, Leftover::Store(store))),
    }
}

/// Opens the files. Where they hold nothing yet, or what an open left that was cut short, they get a database
/// with no table and with pages of `PAGE_BYTES`. An error comes with what is left of the files: they hold what they
/// held.
pub fn open_over<D: Disk + Drop>(
    alloc: Global,
    mut files: Files<D>,
    seed: u64,
) -> Result<Connection<FileStore<D>>, (Error, Leftover<D>)>
    requires log { IsTrue (D.Disk.is_usable files.log) }
    requires db { IsTrue (D.Disk.is_usable files.db) }
    ensures fresh { IfOk result IsNew }
    ensures opened { IfOk result (λ conn. HasCleanDisk (file_state conn)
        → IsOpenedOn (image_of D.Disk files) (file_state conn)) }
    // A crash leaves what it could before, or the same database; and why it failed.
    ensures failed { IfErr result (λ e. IsCleanLeft e.1 → FailsToOpen files e) }
    // An error is one of the kinds that an open of `sqlite` has.
    ensures named { IfErr result (λ e. IsTrue (is_open_error e.0)) }
{
    if are_blank(alloc, &mut files) {
        return make_over(alloc, files, options(PAGE_BYTES, seed));
    }
    let options = options_for(&mut files, seed);
    match Connection::open_files(alloc, files, options) {
        Ok(conn) => Ok(conn),
        Err((error, left)) => Err((error, left)),
    }
}

// The two files at a path, which are made where they aren't there. A path that names none is refused.
fn files_at<S: Start>(rt: &HostRuntime, path: &str, start: S) -> Result<Files<FileFrom<S>>, Error>
    ensures usable { IfOk result (λ files. IsTrue (file_is_usable S.Start files.log)
        × IsTrue (file_is_usable S.Start files.db)) }
    ensures fresh { IfOk result (λ files. IsFresh true files.log × IsFresh false files.db) }
    ensures named { IfErr result (λ e. IsTrue (is_open_error e)) }
{
    if path == ":memory:" || path.starts_with("file:") {
        return Err(CANNOT_OPEN);
    }
    match sqlite_std_file::open(rt, path, start) {
        Ok(files) => Ok(files),
        Err(OpenError::OutOfMemory) => Err(Error::SqliteFailure(ErrorCode::OutOfMemory)),
        Err(_) => Err(CANNOT_OPEN),
    }
}

/// Opens the file at a path, or makes it, as `open_over` does. `S` stands for what the files hold. The
/// connection has no clock, as no statement of a bank asks for the time. An error comes with what is left of the files,
/// once they were opened.
pub fn open<S: Start>(
    rt: &HostRuntime,
    path: &str,
    start: S,
) -> Result<Connection<FileStore<FileFrom<S>>>, (Error, Option<Leftover<FileFrom<S>>>)>
    ensures fresh { IfOk result IsNew }
    ensures opened { IfOk result (λ conn. HasCleanDisk (file_state conn)
        → IsOpenedOn (image_at S.Start) (file_state conn)) }
    ensures failed { IfErr result (λ e. IfSome e.1 (λ left. (files : _) × IsFresh true files.log
        × IsFresh false files.db × (IsCleanLeft left → FailsToOpen files (e.0, left)))) }
    ensures named { IfErr result (λ e. IsTrue (is_open_error e.0)) }
{
    let Ok(random) = RandomState::new(rt) else {
        return Err((CANNOT_OPEN, None));
    };
    let files = match files_at(rt, path, start) {
        Ok(files) => files,
        Err(error) => return Err((error, None)),
    };
    match open_over(rt.alloc(), files, random.hash_one(&0u8)) {
        Ok(conn) => Ok(conn),
        Err((error, left)) => Err((error, Some(left))),
    }
}
