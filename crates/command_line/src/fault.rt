//! Why a command ends before its work is done, and what each fault of a library becomes.
ghost use Rattle.std.specs.Prelude.{◌≡◌};
ghost use Rattle.std.specs.IoError.{error_kind};
ghost use Rattle.command_line.specs.Looking.{IsOfLook, IsOfPlanFile, IsOfSheetFile, fault_of_look};
ghost use Rattle.command_line.specs.Looking.{fault_of_plan_file, fault_of_sheet_file};
ghost use Rattle.command_line.specs.CommandFaults.{fault_of_bank, fault_of_drive, fault_of_following, fault_of_joining};
ghost use Rattle.command_line.specs.CommandFaults.{fault_of_opening, fault_of_plan, fault_of_replies, fault_of_serving, fault_of_sheet};
ghost use Rattle.command_line.specs.CommandFaults.{fault_of_stream, status_of};

use crate::queries::QueryFault;
use crate::status::Status;
use branch_loader::{FollowFault, OtherReply, PlanFault};
use counter_http::ListenFault;
use load_driver::DriveFault;
use message_records::{Account, BadReply};
use posting_core::{BankTable, Count, Fault, OpenFault, Rule, StreamFault};
use posting_sheets::{RepliesFault, SheetFault};
use shared_log::{JoinFault, LogFault};
use std::fmt;
use std::io::{self, ErrorKind};

/// Why a command ended before its work was done. `{}` writes the text that follows `bank: ` on standard
/// error, and [`CommandFault::status`] gives the exit status: 3 where the machine or the file failed, 4 where
/// what came in or the file isn't what the command takes, 5 where a bank can't follow another one. What was acknowledged before a fault is kept.
#[derive(Clone, Copy, Debug, PartialEq, Eq)]
pub enum CommandFault {
    /// Status 3. The store failed, the file is in use by another process, or it can't be opened.
    Store,
    /// Status 3. Memory was refused.
    Memory,
    /// Status 3. The file has rows that no bank has. The call that met them changed nothing.
    Damaged(Rule),
    /// Status 3. Standard input failed.
    Read,
    /// Status 3. Standard output failed. Records that were read were submitted.
    Write,
    /// Status 4. Standard input ended so many bytes into a record, a reply or an entry. Those before it were answered,
    /// written or posted.
    Truncated(u16),
    /// Status 4. The plan is no table of branches and accounts, or can't be read. No branch was opened.
    Plan(PlanFault),
    /// Status 4. The sheet of postings is none, or a row of it. The records of the rows before it were written, or the
    /// lines of their replies.
    Postings(SheetFault),
    /// Status 4. The sheet of postings beside replies can't be read. Nothing was written.
    NoSheet,
    /// Status 4. The row of the sheet in a reply's place, which is counted from 1, is another posting than the one that the
    /// reply answers. The lines of the replies before it were written.
    OtherPosting(u64),
    /// Status 4. The sheet has no row in a reply's place. The lines of the replies before it were written.
    MoreReplies,
    /// Status 4. The bytes are no reply, which is counted from 1, and this field is the first that shows it. The
    /// lines of those before it were written.
    Reply(u64, BadReply),
    /// Status 4. What came after so many entries is none. They were posted.
    NoEntry(Count),
    /// Status 5. An entry got another reply than the one that it has. Nothing that comes after was posted.
    Differs(OtherReply),
    /// Status 4. `init` was given a file that has a bank.
    AlreadyBank,
    /// Status 4. There is no such file, or it has no bank.
    NoBank,
    /// Status 4. The file has some tables with the names of a bank's, and not all.
    Foreign,
    /// Status 4. This table of the file is defined otherwise than a bank makes it.
    OtherTable(BankTable),
    /// Status 4. The file has a bank of this version, which isn't the program's.
    Version(i64),
    /// Status 4. The bank has no open branch to draw records over.
    NoBranches,
    /// Status 4. The account isn't open.
    NoAccount(Account),
    /// Status 4. The bank keeps fewer requests than that.
    NoRequest(u64),
    /// Status 4. What is asked of a statement is none: its dates, its zone or its reference.
    Query(QueryFault),
    /// Status 3. The address can't be bound or has no text, or the listener gave no connection.
    Network,
    /// Status 3. No member of the quorum was reached, it gave no answer in time, or it has no log of this name. What was
    /// answered before stands.
    NoQuorum,
    /// Status 5. The bank's entry with this number, counted from 1, is another than the quorum's. Nothing was served.
    OtherEntry(Count),
}

impl CommandFault {
    /// Why a file isn't found: there is none, or what is before it in its path is no folder, so that there
    /// is no bank; or memory or the system failed.
    pub fn of_look(error: &io::Error) -> CommandFault
        ensures is { result ≡ fault_of_look (error_kind error.now) }
        ensures kind { IsOfLook result }
    {
        match error.kind() {
            ErrorKind::NotFound | ErrorKind::NotADirectory => CommandFault::NoBank,
            ErrorKind::OutOfMemory => CommandFault::Memory,
            _ => CommandFault::Store,
        }
    }

    /// Why the file of a plan isn't opened: the plan can't be read, or memory was refused.
    pub fn of_plan_file(error: &io::Error) -> CommandFault
        ensures is { result ≡ fault_of_plan_file (error_kind error.now) }
        ensures kind { IsOfPlanFile result }
    {
        match error.kind() {
            ErrorKind::OutOfMemory => CommandFault::Memory,
            _ => CommandFault::Plan(PlanFault::Csv),
        }
    }

    /// Why the file of a sheet of postings isn't opened, from why it would be none of a plan: it can't be read, or memory
    /// was refused.
    pub fn of_sheet_file(fault: CommandFault) -> CommandFault
        ensures is { result ≡ fault_of_sheet_file fault }
        ensures kind { IsOfSheetFile result }
    {
        match fault {
            CommandFault::Memory => CommandFault::Memory,
            _ => CommandFault::NoSheet,
        }
    }

    /// How the program ends after this fault: [`Status::System`], [`Status::Input`] or [`Status::Differs`].
    pub fn status(self) -> Status
        ensures { result ≡ status_of self }
    {
        match self {
            CommandFault::Store
            | CommandFault::Memory
            | CommandFault::Damaged(_)
            | CommandFault::Read
            | CommandFault::Write
            | CommandFault::Network
            | CommandFault::NoQuorum => Status::System,
            CommandFault::Truncated(_)
            | CommandFault::Plan(_)
            | CommandFault::Postings(_)
            | CommandFault::NoSheet
            | CommandFault::OtherPosting(_)
            | CommandFault::MoreReplies
            | CommandFault::Reply(_, _)
            | CommandFault::NoEntry(_)
            | CommandFault::AlreadyBank
            | CommandFault::NoBank
            | CommandFault::Foreign
            | CommandFault::OtherTable(_)
            | CommandFault::Version(_)
            | CommandFault::NoBranches
            | CommandFault::NoAccount(_)
            | CommandFault::NoRequest(_)
            | CommandFault::Query(_) => Status::Input,
            CommandFault::Differs(_) | CommandFault::OtherEntry(_) => Status::Differs,
        }
    }
}

impl fmt::Display for CommandFault {
    ghost use Rattle.std.specs.Prelude.{Some};
    ghost use Rattle.command_line.specs.CommandFaults.{fault_text};

    ghost output = { λ fault. Some (fault_text fault) };

    fn fmt<W: fmt::Write>(&self, f: &mut fmt::Formatter<W>) -> fmt::Result {
        let text = match self {
            CommandFault::Store => "store fault",
            CommandFault::Memory => "no memory",
            CommandFault::Damaged(rule) => {
                let fault = Fault::Damaged(*rule);
                return write!(f, "{fault}");
            }
            CommandFault::Read => "read failed",
            CommandFault::Write => "write failed",
            CommandFault::Truncated(count) => return write!(f, "truncated {count} bytes"),
            CommandFault::Plan(fault) => return write!(f, "{fault}"),
            CommandFault::Postings(fault) => return write!(f, "{fault}"),
            CommandFault::NoSheet => "postings unreadable",
            CommandFault::OtherPosting(row) => return write!(f, "row {row} is another posting"),
            CommandFault::MoreReplies => "more replies than rows",
            CommandFault::Reply(place, bad) => return write!(f, "reply {place} {bad}"),
            CommandFault::NoEntry(count) => return write!(f, "no entry after {count}"),
            CommandFault::Differs(other) => return write!(f, "{other}"),
            CommandFault::AlreadyBank => "already a bank",
            CommandFault::NoBank => "no bank",
            CommandFault::Foreign => "foreign tables",
            CommandFault::OtherTable(table) => {
                let fault = OpenFault::OtherTable(*table);
                return write!(f, "{fault}");
            }
            CommandFault::Version(version) => return write!(f, "version {version}"),
            CommandFault::NoBranches => "no branches",
            CommandFault::NoAccount(account) => return write!(f, "no account {account}"),
            CommandFault::NoRequest(count) => return write!(f, "no request {count}"),
            CommandFault::Query(fault) => return write!(f, "{fault}"),
            CommandFault::Network => "network failed",
            CommandFault::NoQuorum => "no quorum",
            CommandFault::OtherEntry(number) => {
                return write!(f, "entry {number} is another than the quorum's");
            }
        };
        f.write_str(text)
    }
}

impl std::error::Error for CommandFault {}

/// Why a bank wasn't made or found.
impl From<OpenFault> for CommandFault {
    ghost from_gives = { λ opening fault. fault ≡ fault_of_opening opening };

    fn from(fault: OpenFault) -> CommandFault {
        match fault {
            OpenFault::Store => CommandFault::Store,
            OpenFault::NotBlank => CommandFault::AlreadyBank,
            OpenFault::Blank => CommandFault::NoBank,
            OpenFault::Foreign => CommandFault::Foreign,
            OpenFault::Version(version) => CommandFault::Version(version),
            OpenFault::OtherTable(table) => CommandFault::OtherTable(table),
            OpenFault::Damaged(rule) => CommandFault::Damaged(rule),
        }
    }
}

/// Why a bank refused a call. `Down` becomes `Store`: a bank that was down tries nothing.
impl From<Fault> for CommandFault {
    ghost from_gives = { λ bank fault. fault ≡ fault_of_bank bank };

    fn from(fault: Fault) -> CommandFault {
        match fault {
            Fault::Memory => CommandFault::Memory,
            Fault::Store | Fault::Down => CommandFault::Store,
            Fault::Damaged(rule) => CommandFault::Damaged(rule),
        }
    }
}

/// Why a plan was refused. Want of memory is no fault of the plan.
impl From<PlanFault> for CommandFault {
    ghost from_gives = { λ plan fault. fault ≡ fault_of_plan plan };

    fn from(fault: PlanFault) -> CommandFault {
        match fault {
            PlanFault::Memory => CommandFault::Memory,
            fault => CommandFault::Plan(fault),
        }
    }
}

/// Why `post` ended before its input did, or within a record.
impl From<StreamFault> for CommandFault {
    ghost from_gives = { λ stream fault. fault ≡ fault_of_stream stream };

    fn from(fault: StreamFault) -> CommandFault {
        match fault {
            StreamFault::Truncated(count) => CommandFault::Truncated(u16::from(count)),
            StreamFault::Read => CommandFault::Read,
            StreamFault::Write => CommandFault::Write,
            StreamFault::Bank(fault) => CommandFault::from(fault),
        }
    }
}

/// Why `encode` ended before its sheet did.
impl From<SheetFault> for CommandFault {
    ghost from_gives = { λ sheet fault. fault ≡ fault_of_sheet sheet };

    fn from(fault: SheetFault) -> CommandFault {
        match fault {
            SheetFault::Read => CommandFault::Read,
            SheetFault::Write => CommandFault::Write,
            SheetFault::Memory => CommandFault::Memory,
            fault => CommandFault::Postings(fault),
        }
    }
}

/// Why `decode` ended before its input did, within a reply or at one that the sheet beside it has no row of.
impl From<RepliesFault> for CommandFault {
    ghost from_gives = { λ replies fault. fault ≡ fault_of_replies replies };

    fn from(fault: RepliesFault) -> CommandFault {
        match fault {
            RepliesFault::Truncated(count) => CommandFault::Truncated(u16::from(count)),
            RepliesFault::Reply(place, bad) => CommandFault::Reply(place, bad),
            RepliesFault::Read => CommandFault::Read,
            RepliesFault::Write => CommandFault::Write,
            RepliesFault::Memory => CommandFault::Memory,
            RepliesFault::Sheet => CommandFault::NoSheet,
            RepliesFault::Header => CommandFault::Postings(SheetFault::Header),
            RepliesFault::Row(row, bad) => CommandFault::Postings(SheetFault::Row(row, bad)),
            RepliesFault::OtherPosting(row) => CommandFault::OtherPosting(row),
            RepliesFault::MoreReplies => CommandFault::MoreReplies,
        }
    }
}

/// Why `follow` ended before its input did, or within an entry.
impl From<FollowFault> for CommandFault {
    ghost from_gives = { λ following fault. fault ≡ fault_of_following following };

    fn from(fault: FollowFault) -> CommandFault {
        match fault {
            FollowFault::Truncated(count) => CommandFault::Truncated(count),
            FollowFault::Read => CommandFault::Read,
            FollowFault::NoEntry(count) => CommandFault::NoEntry(count),
            FollowFault::Differs(other) => CommandFault::Differs(other),
            FollowFault::Memory => CommandFault::Memory,
            FollowFault::Bank(fault) => CommandFault::from(fault),
        }
    }
}

/// Why `drive` ended before its last record.
impl From<DriveFault> for CommandFault {
    ghost from_gives = { λ drive fault. fault ≡ fault_of_drive drive };

    fn from(fault: DriveFault) -> CommandFault {
        match fault {
            DriveFault::NoBranches => CommandFault::NoBranches,
            DriveFault::Bank(fault) => CommandFault::from(fault),
        }
    }
}

/// Why `serve` took no more clients.
impl From<ListenFault> for CommandFault {
    ghost from_gives = { λ serving fault. fault ≡ fault_of_serving serving };

    fn from(fault: ListenFault) -> CommandFault {
        match fault {
            ListenFault::Network => CommandFault::Network,
            ListenFault::Bank(fault) => CommandFault::from(fault),
        }
    }
}

/// Why `serve` didn't join the machines that share a log.
impl From<JoinFault> for CommandFault {
    ghost from_gives = { λ joining fault. fault ≡ fault_of_joining joining };

    fn from(fault: JoinFault) -> CommandFault {
        match fault {
            JoinFault::Differs(number) => CommandFault::OtherEntry(number),
            JoinFault::Follow(fault) => CommandFault::from(fault),
            JoinFault::Bank(fault) => CommandFault::from(fault),
            JoinFault::Log(LogFault::Memory) => CommandFault::Memory,
            JoinFault::Log(_) => CommandFault::NoQuorum,
        }
    }
}
