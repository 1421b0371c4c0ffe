//! Files in memory that crash after so many calls, and what tasks leave in them. The store over them is named
//! here alone.
use crate::tasks::{NOT_BEGUN, Progress, Task, play};
use sqlite::{Connection, FileStore, Files, Options};
use sqlite_disk::{Crash, Disk, Fuse, Memory};
use std::alloc::{Alloc, Global};
use std::process::Abort;

/// A file that passes so many calls on, and fails each one after them.
pub type Fused = Fuse<Memory>;

/// The bytes of the database file and of its log.
#[derive(Drop)]
pub struct Image {
    pub db: Vec<u8>,
    pub log: Vec<u8>,
}

/// How many calls on the database file and on its log pass.
#[derive(Clone, Copy)]
pub struct Passed {
    pub db: u64,
    pub log: u64,
}

/// No call fails.
pub const ALL_PASS: Passed = Passed {
    db: u64::MAX,
    log: u64::MAX,
};

/// How far tasks on files came, and what the files hold then.
#[derive(Drop)]
pub struct Ended {
    pub progress: Progress,
    /// All that was written.
    pub written: Image,
    /// What was synced, which is left when the machine stops.
    pub synced: Image,
}

// A small cache and a short log, so that a posting reads, writes and copies the log back.
fn options() -> Options {
    Options {
        cache_pages: 2,
        spill_pages: 2,
        checkpoint_frames: 3,
        seed: 7,
    }
}

// Puts these bytes into the file.
fn fill(rt: &impl Abort, file: &mut Memory, bytes: &[u8]) {
    assert!(rt; file.may_be_used());
    assert!(rt; file.write_at(0, bytes).is_ok());
    assert!(rt; file.may_be_used());
    assert!(rt; file.sync().is_ok());
}

fn fused(rt: &(impl Abort + Alloc<A = Global>), bytes: &[u8], calls: u64) -> Fused {
    let mut file = Memory::new(rt.alloc());
    fill(rt, &mut file, bytes);
    Fuse::new(file, calls)
}

fn copied(rt: &(impl Abort + Alloc<A = Global>), bytes: &[u8]) -> Vec<u8> {
    bytes.to_vec(rt.alloc()).expect(rt, "memory")
}

// What is in the files as they are.
fn held(rt: &(impl Abort + Alloc<A = Global>), files: &Files<Fused>) -> Image {
    Image {
        db: copied(rt, files.db.inner().bytes()),
        log: copied(rt, files.log.inner().bytes()),
    }
}

// Stops the machine.
fn left_in(
    rt: &(impl Abort + Alloc<A = Global>),
    files: &mut Files<Fused>,
    progress: Progress,
) -> Ended {
    let written = held(rt, files);
    files.db.crash();
    files.log.crash();
    Ended {
        progress,
        written,
        synced: held(rt, files),
    }
}

// Opens the files and does the tasks, until these end or a call on a file fails.
fn played<D: Disk + Drop>(
    rt: &(impl Abort + Alloc<A = Global>),
    files: Files<D>,
    tasks: &[Task],
) -> (Progress, Files<D>) {
    assert!(rt; files.may_be_used());
    match Connection::open_files(rt.alloc(), files, options()) {
        Ok(conn) => {
            let (progress, store) = play(rt, conn, tasks);
            (progress, store.close())
        }
        Err((_error, left)) => (NOT_BEGUN, left.into_files()),
    }
}

fn files_of(
    rt: &(impl Abort + Alloc<A = Global>),
    db: &[u8],
    log: &[u8],
    passed: Passed,
) -> Files<Fused> {
    Files {
        db: fused(rt, db, passed.db),
        log: fused(rt, log, passed.log),
    }
}

/// A connection over new files, of which no call fails.
pub fn opened(rt: &(impl Abort + Alloc<A = Global>)) -> Connection<FileStore<Fused>> {
    let files = files_of(rt, &[], &[], ALL_PASS);
    assert!(rt; files.may_be_used());
    match Connection::open_files(rt.alloc(), files, options()) {
        Ok(conn) => conn,
        Err(_) => panic!(rt; "new files"),
    }
}

/// Does the tasks on files that hold these bytes.
pub fn play_on(
    rt: &(impl Abort + Alloc<A = Global>),
    db: &[u8],
    log: &[u8],
    passed: Passed,
    tasks: &[Task],
) -> Ended {
    let files = files_of(rt, db, log, passed);
    let (progress, mut files) = played(rt, files, tasks);
    left_in(rt, &mut files, progress)
}
