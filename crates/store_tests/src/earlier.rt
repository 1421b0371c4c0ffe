//! Files of earlier versions: their bank is carried over, whole, where the machine stops at each call on a file, and
//! not at all where something else has the name of a table that is made.
use crate::files::{ALL_PASS, Image, play_on};
use crate::stops::{made, stops_at_each};
use crate::tasks::Task;
use bank_store::{Bank, Migrated, OpenFault, Refused, adopt, migrate};
use sqlite::{Alter, Connection};
use std::alloc::{Alloc, Global};
use std::process::Abort;

/// An earlier version.
#[derive(Clone, Copy, PartialEq, Eq)]
pub enum Version {
    BeforeFloors,
    BeforeReferences,
    BeforeClosings,
}

impl Version {
    /// Its number in `meta`.
    pub fn number(self) -> i64 {
        match self {
            Version::BeforeFloors => 1,
            Version::BeforeReferences => 2,
            Version::BeforeClosings => 3,
        }
    }
}

/// The tables as they were before floors, and a bank of branch 1 with three accounts and branch 2 with two, after
/// the first posting and a remote one.
pub const EARLIER: &str = "BEGIN; \
    CREATE TABLE meta (id INTEGER PRIMARY KEY CHECK (id = 1), version INTEGER NOT NULL, \
    decided INTEGER NOT NULL) STRICT; \
    CREATE TABLE branch (bid INTEGER PRIMARY KEY, accounts INTEGER NOT NULL, balance INTEGER NOT NULL) STRICT; \
    CREATE TABLE teller (tid INTEGER PRIMARY KEY, balance INTEGER NOT NULL) STRICT; \
    CREATE TABLE account (aid INTEGER PRIMARY KEY, balance INTEGER NOT NULL) STRICT; \
    CREATE TABLE history (ordinal INTEGER PRIMARY KEY, aid INTEGER NOT NULL, tid INTEGER NOT NULL, \
    bid INTEGER NOT NULL, delta INTEGER NOT NULL, moment INTEGER NOT NULL) STRICT; \
    CREATE TABLE request (ordinal INTEGER PRIMARY KEY, tid INTEGER NOT NULL, number INTEGER NOT NULL, \
    aid INTEGER NOT NULL, bid INTEGER NOT NULL, delta INTEGER NOT NULL, outcome INTEGER NOT NULL, \
    balance INTEGER NOT NULL, UNIQUE (tid, number)) STRICT; \
    INSERT INTO meta VALUES (1, 1, 2); \
    INSERT INTO branch VALUES (1, 3, -200), (2, 2, 0); \
    INSERT INTO teller VALUES (1, -200), (2, 0), (3, 0), (4, 0), (5, 0), (6, 0), (7, 0), (8, 0), (9, 0), (10, 0), \
    (11, 0), (12, 0), (13, 0), (14, 0), (15, 0), (16, 0), (17, 0), (18, 0), (19, 0), (20, 0); \
    INSERT INTO account VALUES (1, 500), (2, 0), (3, 0), (100001, -700), (100002, 0); \
    INSERT INTO history VALUES (1, 1, 1, 1, 500, 1000), (2, 100001, 1, 1, -700, 2000); \
    INSERT INTO request VALUES (1, 1, 1, 1, 1, 500, 0, 500), (2, 1, 2, 100001, 1, -700, 0, -700); \
    COMMIT";

/// What makes that bank one of the version before references, with a floor of branch 1.
pub const FLOORS: &str = "BEGIN; \
    CREATE TABLE branch_floor (bid INTEGER PRIMARY KEY, lowest INTEGER NOT NULL) STRICT; \
    INSERT INTO branch_floor VALUES (1, -1000); \
    UPDATE meta SET version = 2; \
    COMMIT";

/// What makes that bank one of the version before closed numbers.
pub const REFERENCES: &str = "BEGIN; \
    CREATE TABLE request_reference (ordinal INTEGER PRIMARY KEY, reference TEXT NOT NULL) STRICT; \
    UPDATE meta SET version = 3; \
    COMMIT";

/// The bank is carried over, or was before, as it is wanted.
pub fn migrated<S: Alter + Drop>(
    rt: &(impl Abort + Alloc<A = Global>),
    conn: Connection<S>,
    wanted: Migrated,
) -> Result<Bank<S>, Refused<S>> {
    assert!(rt; conn.is_autocommit());
    let (bank, migrated) = migrate(rt.alloc(), conn)?;
    assert_eq!(rt; migrated, wanted);
    Ok(bank)
}

/// The same of what a crash left: a bank of the version before, if it wasn't answered that it was carried over, or of
/// the present one.
pub fn migrated_again<S: Alter + Drop>(
    rt: &(impl Abort + Alloc<A = Global>),
    conn: Connection<S>,
    version: Version,
    is_answered: bool,
) -> Result<Bank<S>, Refused<S>> {
    assert!(rt; conn.is_autocommit());
    match adopt(rt.alloc(), conn) {
        Ok(bank) => migrated(rt, bank.release(), Migrated::Already),
        Err(Refused { fault, conn }) => {
            let number = version.number();
            assert_eq!(rt; (fault, is_answered), (OpenFault::Version(number), false));
            migrated(rt, conn, Migrated::Moved(number))
        }
    }
}

fn earlier(rt: &(impl Abort + Alloc<A = Global>), version: Version, beside: &str) -> Image {
    made(rt, &[Task::MakeEarlier(version, beside)])
}

// Stops at each call on the one file or the other. Some stops are in the migration.
fn migration_stops(rt: &(impl Abort + Alloc<A = Global>), version: Version, stops_db: bool) {
    let start = earlier(rt, version, "");
    assert!(rt; stops_at_each(rt, &start, Task::Migrate(version), stops_db) > 0);
}

#[test]
fn a_migration_from_before_floors_stops_at_the_database_file(rt: HostRuntime) {
    migration_stops(&rt, Version::BeforeFloors, true);
}

#[test]
fn a_migration_from_before_floors_stops_at_the_log(rt: HostRuntime) {
    migration_stops(&rt, Version::BeforeFloors, false);
}

#[test]
fn a_migration_from_before_references_stops_at_the_database_file(rt: HostRuntime) {
    migration_stops(&rt, Version::BeforeReferences, true);
}

#[test]
fn a_migration_from_before_references_stops_at_the_log(rt: HostRuntime) {
    migration_stops(&rt, Version::BeforeReferences, false);
}

#[test]
fn a_migration_from_before_closed_numbers_stops_at_the_database_file(rt: HostRuntime) {
    migration_stops(&rt, Version::BeforeClosings, true);
}

#[test]
fn a_migration_from_before_closed_numbers_stops_at_the_log(rt: HostRuntime) {
    migration_stops(&rt, Version::BeforeClosings, false);
}

// Something else has the name of a table that is made.
fn stays_as_it_is(rt: &(impl Abort + Alloc<A = Global>), version: Version, beside: &str) {
    let start = earlier(rt, version, beside);
    let tasks = [Task::MeetForeign(version)];
    let ended = play_on(rt, &start.db, &start.log, ALL_PASS, &tasks);
    assert!(rt; ended.progress.is_done);
    assert!(rt; ended.written.db.as_slice() == start.db.as_slice());
    assert!(rt; ended.written.log.as_slice() == start.log.as_slice());
}

#[test]
fn a_name_is_taken(rt: HostRuntime) {
    for (version, beside) in [
        (
            Version::BeforeFloors,
            "CREATE TABLE branch_floor (bid INTEGER PRIMARY KEY, lowest INTEGER NOT NULL) STRICT",
        ),
        (
            Version::BeforeFloors,
            "CREATE INDEX branch_floor ON history (aid)",
        ),
        (
            Version::BeforeFloors,
            "CREATE TABLE request_reference (name TEXT)",
        ),
        (
            Version::BeforeReferences,
            "CREATE VIEW request_reference AS SELECT bid FROM branch",
        ),
        (
            Version::BeforeReferences,
            "CREATE TABLE closing (last INTEGER PRIMARY KEY, first INTEGER NOT NULL) STRICT",
        ),
        (
            Version::BeforeClosings,
            "CREATE INDEX closing ON request (aid)",
        ),
    ] {
        stays_as_it_is(&rt, version, beside);
    }
}
