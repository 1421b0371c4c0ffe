//! What a run notes for the second line on standard error, which says why. **Not verified, review by hand**: that line
//! has no clause.
ghost use Rattle.std.specs.Prelude.{◌≡◌};

use command_line::{Command, CommandFault, Status, Task, Work};
use posting_sheets::{BadRow, Column, FieldStart, SheetFault};
use std::cell::Cell;
use std::{fmt, str};

/// What a run has met that its line doesn't tell: the file and the address that its words name, and whether they ask why;
/// that a write found no room, what stands in a row that was refused, and the fault of its command.
#[derive(Drop)]
pub struct Notes<'w> {
    pub(crate) file: Cell<Option<&'w str>>,
    pub(crate) address: Cell<Option<&'w str>>,
    pub(crate) asks_why: Cell<bool>,
    pub(crate) is_full: Cell<bool>,
    pub(crate) refused: Cell<Option<BadRow>>,
    pub(crate) fault: Cell<Option<CommandFault>>,
}

impl<'w> Notes<'w> {
    /// Of a run that hasn't begun.
    #[must_use]
    pub fn new() -> Notes<'w> {
        Notes {
            file: Cell::new(None),
            address: Cell::new(None),
            asks_why: Cell::new(false),
            is_full: Cell::new(false),
            refused: Cell::new(None),
            fault: Cell::new(None),
        }
    }

    // What the words ask for.
    pub(crate) fn note_command(&self, command: &Command<'w>) {
        match *command {
            Command::OnFile { file, .. } => self.file.set(Some(file)),
            Command::Why { file } => {
                self.file.set(Some(file));
                self.asks_why.set(true);
            }
            _ => {}
        }
        if let Command::OnFile {
            task: Task::With(Work::Serve { address, .. }) | Task::Share { address, .. },
            ..
        } = *command
        {
            self.address.set(Some(address));
        }
    }

    // How a command ended, with a note of its fault.
    pub(crate) fn of_end(&self, end: Result<Status, CommandFault>) -> Result<Status, CommandFault>
        ensures { result ≡ end }
    {
        if let Err(fault) = &end {
            self.fault.set(Some(*fault));
        }
        end
    }

    // How a command ended that read a sheet, with a note of a row that was refused.
    pub(crate) fn of_sheet(&self, end: Result<Status, CommandFault>) -> Result<Status, CommandFault>
        ensures { result ≡ end }
    {
        if let Err(CommandFault::Postings(fault)) = &end {
            self.note_row(*fault);
        }
        end
    }

    fn note_row(&self, fault: SheetFault) {
        if let SheetFault::Row(_, bad) = fault {
            self.refused.set(Some(bad));
        }
    }
}

/// How a field begins, in quotes. Where it is no text, or has what a terminal would obey, `?` stands for such a byte.
#[derive(Clone, Copy)]
pub(crate) struct Quoted(pub(crate) FieldStart);

impl fmt::Display for Quoted {
    fn fmt<W: fmt::Write>(&self, f: &mut fmt::Formatter<W>) -> fmt::Result {
        let bytes = self.0.as_bytes();
        f.write_char('"')?;
        match str::from_utf8(bytes) {
            Ok(text) if !text.chars().any(char::is_control) => f.write_str(text)?,
            _ => {
                for byte in bytes {
                    f.write_char(if matches!(*byte, b' '..=b'~') {
                        char::from(*byte)
                    } else {
                        '?'
                    })?;
                }
            }
        }
        f.write_str(if self.0.goes_on() { "\".." } else { "\"" })
    }
}

/// The second line of a row that was refused; none where no field of it is.
pub(crate) fn found_in(bad: &BadRow) -> Option<Quoted> {
    match bad.column {
        Column::Columns => None,
        _ => Some(Quoted(bad.found)),
    }
}
