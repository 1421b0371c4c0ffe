//! A database is made in files that hold nothing yet.
ghost use Rattle.std.specs.Prelude.{◌≡◌, ◌≤◌, [], IsTrue, IfErr, IfOk};
ghost use Rattle.sqlite.specs.Files.{IsCleanLeft, faults_of, image_of};
ghost use Rattle.sqlite.specs.Opening.{is_open_error, reported};
ghost use Rattle.sqlite_pool.specs.Opening.{IsBlankFile};
ghost use Rattle.sqlite_store.specs.FileStore.{faults, state, view};
ghost use Rattle.sqlite_store.specs.Unopened.{AreUsable, files_of, image, state_of, wanted_by};
ghost use Rattle.sqlite_wal.specs.PageSize.{bytes_of};
ghost use Rattle.sqlite_wal.specs.Reads.{AreClean, OnlyReads};
ghost use Rattle.bank_files.specs.Leftover.{FailsToMake, FailsToOpen};
ghost use Rattle.bank_files.specs.Opening.{IsMadeEmpty};

use sqlite::{Error, ErrorCode, FileStore, Files, Leftover, Options};
use sqlite_disk::Disk;
use sqlite_pager::Pager;
use sqlite_pool::probe_blank;
use sqlite_store::{OpenError, Unopened};
use sqlite_wal::PageSize;
use std::alloc::{AllocFailed, Global};

/// The bytes of a page of a new file.
pub const PAGE_BYTES: usize = 1024;

const NO_MEMORY: Error = Error::SqliteFailure(ErrorCode::OutOfMemory);

fn page_size() -> PageSize
    ensures { bytes_of result ≡ PAGE_BYTES }
{
    PageSize::new(PAGE_BYTES).unwrap()
}

// Whether the files hold nothing yet, or what an open left that was cut short; not where they couldn't be read.
pub(crate) fn are_blank<D: Disk>(alloc: Global, files: &mut Files<D>) -> bool
    requires log { IsTrue (D.Disk.is_usable files.old.log) }
    requires db { IsTrue (D.Disk.is_usable files.old.db) }
    ensures blank { IsTrue result → AreClean D.Disk files.new.log files.new.db
        → IsBlankFile PAGE_BYTES (image_of D.Disk files.old) }
    ensures log { OnlyReads D.Disk files.old.log files.new.log }
    ensures db { OnlyReads D.Disk files.old.db files.new.db }
    ensures counts { faults_of D.Disk files.old ≤ faults_of D.Disk files.new }
{
    match probe_blank(alloc, files, page_size(), false) {
        Ok(are_blank) => are_blank,
        Err(_) => false,
    }
}

// The files, to be opened as a database with no table.
fn unopened<D: Disk + Drop>(
    alloc: Global,
    files: Files<D>,
    options: Options,
) -> Result<Unopened<D>, Files<D>>
    ensures files { IfOk result (λ it. files_of it ≡ (files.log, files.db)) }
    ensures size { IfOk result (λ it. (state_of it).page_size ≡ PAGE_BYTES) }
    ensures none { IfOk result (λ it. wanted_by it ≡ []) }
    ensures back { IfErr result (λ left. (left.log ≡ files.log) × (left.db ≡ files.db)) }
{
    let pager = match Pager::new(alloc, files, page_size(), options) {
        Ok(pager) => pager,
        Err(AllocFailed { value }) => return Err(value),
    };
    match Unopened::new(alloc, pager, &[]) {
        Ok(it) => Ok(it),
        Err(AllocFailed { value }) => Err(value.close()),
    }
}

fn open_error(error: OpenError) -> Error
    ensures named { IsTrue (is_open_error result) }
    ensures value { result ≡ reported error }
{
    Error::SqliteFailure(match error {
        OpenError::OutOfMemory => ErrorCode::OutOfMemory,
        OpenError::Io => ErrorCode::SystemIoFailure,
        OpenError::Full => ErrorCode::DiskFull,
        OpenError::Refused => ErrorCode::DatabaseCorrupt,
    })
}

// A store with no table, in files that it is made in.
fn made<D: Disk + Drop>(files: Unopened<D>) -> Result<FileStore<D>, (Error, Unopened<D>)>
    requires usable { AreUsable files }
    requires none { wanted_by files ≡ [] }
    requires size { (state_of files).page_size ≡ PAGE_BYTES }
    ensures honest { IfOk result (λ store. IsTrue (view store).is_clean → IsTrue (state_of files).is_clean) }
    ensures ok { IfOk result (λ store. IsTrue (view store).is_clean → IsMadeEmpty (view store)) }
    ensures size { IfOk result (λ store. IsTrue (view store).is_clean
        → (state store).page_size ≡ (state_of files).page_size) }
    ensures counts { IfOk result (λ store. IsTrue (view store).is_clean → (state_of files).faults ≤ faults store) }
    ensures falls { IfErr result (λ e. IsTrue (state_of e.1).is_clean → IsTrue (state_of files).is_clean) }
    ensures failed { IfErr result (λ e. IsTrue (state_of e.1).is_clean
        → IsBlankFile PAGE_BYTES (image files) → FailsToMake files e) }
    ensures named { IfErr result (λ e. IsTrue (is_open_error e.0)) }
{
    match files.create() {
        Ok(store) => Ok(store),
        Err((error, left)) => Err((open_error(error), left)),
    }
}

// A store with no table, in files that hold nothing yet.
pub(crate) fn make_store<D: Disk + Drop>(
    alloc: Global,
    files: Files<D>,
    options: Options,
) -> Result<FileStore<D>, (Error, Leftover<D>)>
    requires log { IsTrue (D.Disk.is_usable files.log) }
    requires db { IsTrue (D.Disk.is_usable files.db) }
    requires blank { AreClean D.Disk files.log files.db → IsBlankFile PAGE_BYTES (image_of D.Disk files) }
    ensures honest { IfOk result (λ store. IsTrue (view store).is_clean
        → AreClean D.Disk files.log files.db) }
    ensures ok { IfOk result (λ store. IsTrue (view store).is_clean → IsMadeEmpty (view store)) }
    ensures size { IfOk result (λ store. IsTrue (view store).is_clean
        → (state store).page_size ≡ PAGE_BYTES) }
    ensures counts { IfOk result (λ store. IsTrue (view store).is_clean
        → faults_of D.Disk files ≤ faults store) }
    ensures failed { IfErr result (λ e. IsCleanLeft e.1 → FailsToOpen files e) }
    ensures named { IfErr result (λ e. IsTrue (is_open_error e.0)) }
{
    let files = match unopened(alloc, files, options) {
        Ok(files) => files,
        Err(files) => return Err((NO_MEMORY, Leftover::Files(files))),
    };
    match made(files) {
        Ok(store) => Ok(store),
        Err((error, left)) => Err((error, Leftover::Unopened(left))),
    }
}
