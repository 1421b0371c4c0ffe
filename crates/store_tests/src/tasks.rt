//! Tasks on the bank of any store, one after another. What a task does with the bank borrows it.
use crate::calls::{Call, ask, ask_to_the_end};
use crate::cases::{Case, Way};
use crate::earlier::{EARLIER, FLOORS, REFERENCES, Version, migrated, migrated_again};
use crate::readings::{Reading, is_consistent, read};
use crate::reports::reports_are_cut;
use crate::sql::batch;
use bank_scenarios::{End, ExpectedSums, History, sums_of};
use bank_store::{Bank, Migrated, OpenFault, Refused, adopt, create};
use sqlite::{Alter, Connection};
use std::alloc::{Alloc, Global};
use std::process::Abort;

/// Branch 1 with three accounts and branch 2 with two.
pub const BRANCHES: &[(u64, u32)] = &[(1, 3), (2, 2)];

/// What is done with the bank.
#[derive(Clone, Copy)]
pub enum Task<'a> {
    /// It is made, with no branch.
    Create,
    /// What that left, which was answered or not, is taken up, or a bank is made where there is none.
    Recreate(bool),
    /// It is made, with these branches and counts of accounts.
    Make(&'a [(u64, u32)]),
    /// It gets 1,000 postings.
    Post,
    /// It gets a case.
    Work(Case<'a>),
    /// What a case left, of which so many parts were answered, is tested, and it is made again.
    Again(Case<'a>, usize),
    /// All that was posted is read.
    Read(Reading),
    /// The same, where each statement may visit so many rows.
    Limited(u64),
    /// Its reports are cut.
    Report,
    /// It is made by hand, as a bank of an earlier version, with this beside it.
    MakeEarlier(Version, &'a str),
    /// That bank is carried over.
    Migrate(Version),
    /// What that left, which was answered or not, is carried over, if it wasn't, and read.
    Remigrate(Version, bool),
    /// That bank isn't carried over, since something else has a name.
    MeetForeign(Version),
}

impl<'a> Task<'a> {
    /// What is done on what a crash in it left.
    pub fn again(self, progress: Progress) -> Task<'a> {
        match self {
            Task::Create => Task::Recreate(progress.is_done),
            Task::Work(case) => Task::Again(case, progress.parts),
            Task::Migrate(version) => Task::Remigrate(version, progress.is_done),
            task => task,
        }
    }

    fn makes(self) -> bool {
        matches!(self, Task::Create | Task::Make(_))
    }

    fn may_stop(self) -> bool {
        matches!(
            self,
            Task::Create | Task::Work(_) | Task::Read(_) | Task::Limited(_) | Task::Migrate(_)
        )
    }

    // The fault for which there is no bank, if it isn't that the machine stopped.
    fn fault(self) -> Option<OpenFault> {
        match self {
            Task::MakeEarlier(version, _) => Some(OpenFault::Version(version.number())),
            Task::MeetForeign(_) => Some(OpenFault::Foreign),
            _ => None,
        }
    }
}

/// How far a task came, and how many of its parts were answered.
#[derive(Clone, Copy)]
pub struct Progress {
    pub is_begun: bool,
    pub is_done: bool,
    pub parts: usize,
}

// It came to its end.
const DONE: Progress = Progress {
    is_begun: true,
    is_done: true,
    parts: 0,
};

/// The machine stopped before it began.
pub const NOT_BEGUN: Progress = Progress {
    is_begun: false,
    is_done: false,
    parts: 0,
};

// How far a task came, and the connection then.
struct Worked<S: Alter> {
    came: Progress,
    conn: Connection<S>,
}

// The tables are as they may be after so many parts of the case.
fn is_left<S: Alter>(rt: &impl Abort, conn: &mut Connection<S>, case: &Case, parts: usize) {
    let found = sums_of(conn).expect(rt, "the tables");
    assert!(rt; case.may_leave(parts, &found), "behind {parts} parts");
}

fn do_all<S: Alter>(rt: &impl Abort, conn: &mut Connection<S>, statements: &str) {
    assert_eq!(rt; batch(conn, statements), Ok(()));
}

// Makes a bank of an earlier version, and something beside it.
fn make_earlier<S: Alter>(
    rt: &impl Abort,
    conn: &mut Connection<S>,
    version: Version,
    beside: &str,
) {
    do_all(rt, conn, EARLIER);
    if version != Version::BeforeFloors {
        do_all(rt, conn, FLOORS);
    }
    if version == Version::BeforeClosings {
        do_all(rt, conn, REFERENCES);
    }
    do_all(rt, conn, beside);
}

// What is done with the tables before the bank is taken up.
fn prepare<S: Alter>(rt: &impl Abort, conn: &mut Connection<S>, task: Task) {
    match task {
        Task::Again(case, parts) => is_left(rt, conn, &case, parts),
        Task::Limited(rows) => conn.set_step_limit(Some(rows)),
        Task::MakeEarlier(version, beside) => make_earlier(rt, conn, version, beside),
        _ => {}
    }
}

// Gets a case, until it ends or the machine stops.
fn work_until<S: Alter + Drop>(
    rt: &(impl Abort + Alloc<A = Global>),
    bank: &mut Bank<S>,
    case: &Case,
) -> Progress {
    let came = ask(rt, bank, Call::Case(case));
    let is_done = came.end == End::Done;
    assert!(rt; is_done || came.end == End::Stopped);
    assert_eq!(rt; bank.cause().is_some(), !is_done);
    Progress {
        is_begun: true,
        is_done,
        parts: came.parts,
    }
}

// Gets branches, all of which are opened.
fn open_all<S: Alter + Drop>(
    rt: &(impl Abort + Alloc<A = Global>),
    bank: &mut Bank<S>,
    plan: &[(u64, u32)],
) {
    let history = History::of(rt.alloc(), plan, &[]).expect(rt, "a history");
    let case = Case::of(Way::Load, &history, 0);
    ask_to_the_end(rt, bank, Call::Case(&case));
}

// What is done with the bank.
fn act<S: Alter + Drop>(
    rt: &(impl Abort + Alloc<A = Global>),
    bank: &mut Bank<S>,
    task: Task,
) -> Progress {
    match task {
        Task::Create | Task::Recreate(_) | Task::Migrate(_) => {}
        Task::MakeEarlier(_, _) | Task::MeetForeign(_) => {}
        Task::Make(plan) => open_all(rt, bank, plan),
        Task::Post => ask_to_the_end(rt, bank, Call::Postings),
        Task::Work(case) => return work_until(rt, bank, &case),
        Task::Again(case, _) => {
            assert!(rt; is_consistent(bank));
            ask_to_the_end(rt, bank, Call::Case(&case));
        }
        Task::Read(reading) => return read(rt, bank, reading),
        Task::Remigrate(_, _) => return read(rt, bank, Reading::AuditText),
        Task::Limited(_) => return read(rt, bank, Reading::History),
        Task::Report => reports_are_cut(rt, bank),
    }
    DONE
}

// What is found in the tables after it.
fn review<S: Alter>(rt: &impl Abort, conn: &mut Connection<S>, task: Task) {
    match task {
        Task::Again(case, _) => assert_eq!(rt; sums_of(conn).ok(), Some(case.last())),
        Task::Recreate(_) => assert_eq!(rt; sums_of(conn).ok(), Some(ExpectedSums::new().sums())),
        _ => {}
    }
}

// A bank is refused where the machine stops.
fn refused(rt: &impl Abort, fault: OpenFault, task: Task) -> Progress {
    if task.fault() == Some(fault) {
        return DONE;
    }
    assert_eq!(rt; fault, OpenFault::Store);
    assert!(rt; task.may_stop());
    Progress {
        is_begun: task.makes() || matches!(task, Task::Migrate(_)),
        ..NOT_BEGUN
    }
}

// Makes the bank where there is none, if it wasn't answered that there is one.
fn remade<S: Alter + Drop>(
    rt: &(impl Abort + Alloc<A = Global>),
    found: Result<Bank<S>, Refused<S>>,
    task: Task,
) -> Result<Bank<S>, Refused<S>> {
    match (task, found) {
        (
            Task::Recreate(false),
            Err(
                Refused {
                    fault: OpenFault::Blank,
                    conn,
                },
            ),
        ) => {
            assert!(rt; conn.is_autocommit());
            create(rt.alloc(), conn)
        }
        (_, found) => found,
    }
}

// Makes the bank or takes it up.
fn taken<S: Alter + Drop>(
    rt: &(impl Abort + Alloc<A = Global>),
    conn: Connection<S>,
    task: Task,
) -> Result<Bank<S>, Refused<S>> {
    assert!(rt; conn.is_autocommit());
    match task {
        Task::Create | Task::Make(_) => create(rt.alloc(), conn),
        Task::Migrate(version) | Task::MeetForeign(version) => {
            migrated(rt, conn, Migrated::Moved(version.number()))
        }
        Task::Remigrate(version, is_answered) => migrated_again(rt, conn, version, is_answered),
        _ => remade(rt, adopt(rt.alloc(), conn), task),
    }
}

// Makes the bank or takes it up, and does the task, until that ends or the machine stops.
fn work<S: Alter + Drop>(
    rt: &(impl Abort + Alloc<A = Global>),
    conn: Connection<S>,
    task: Task,
) -> Worked<S> {
    match taken(rt, conn, task) {
        Ok(mut bank) => Worked {
            came: act(rt, &mut bank, task),
            conn: bank.release(),
        },
        Err(Refused { fault, conn }) => Worked {
            came: refused(rt, fault, task),
            conn,
        },
    }
}

/// Does the tasks. The answer is how far the last one came, and the store.
pub fn play<S: Alter + Drop>(
    rt: &(impl Abort + Alloc<A = Global>),
    mut conn: Connection<S>,
    tasks: &[Task],
) -> (Progress, S) {
    let mut progress = NOT_BEGUN;
    for task in tasks {
        prepare(rt, &mut conn, *task);
        let Worked { came, conn: left } = work(rt, conn, *task);
        conn = left;
        progress = came;
        review(rt, &mut conn, *task);
    }
    (progress, conn.into_store())
}
