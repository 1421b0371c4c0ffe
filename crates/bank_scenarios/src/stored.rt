//! A bank in tables, which a step takes up and the next one gives back.
use crate::answers::{Call, make_call};
use crate::replayed::replayed;
use crate::tables::{Query, QueryAnswer, run_query};
use bank_store::{Bank, OpenFault, Refused, adopt, create};
use sqlite::{Alter, Connection, Error};
use std::alloc::{AllocError, Global};
use std::mem;

/// What keeps the tables.
#[derive(Drop)]
enum Kept<S: Alter> {
    /// There are none; also while a bank is taken up or given back.
    NoTables,
    Released(Connection<S>),
    /// As a step left it that took it up.
    Taken(Bank<S>),
}

/// A bank in tables, or tables that hold none.
#[derive(Drop)]
pub struct Stored<S: Alter> {
    alloc: Global,
    kept: Kept<S>,
    // Why no bank was taken up or made, at the last try.
    fault: OpenFault,
}

fn refused<S: Alter>(conn: Connection<S>) -> Result<Bank<S>, Refused<S>> {
    Err(Refused {
        fault: OpenFault::Store,
        conn,
    })
}

impl<S: Alter + Drop> Stored<S> {
    /// The tables under a connection.
    pub fn new(alloc: Global, conn: Connection<S>) -> Self {
        Stored {
            alloc,
            kept: Kept::Released(conn),
            fault: OpenFault::Blank,
        }
    }

    // The connection, with the bank given back. What comes of it is kept again.
    fn taken_out(&mut self) -> Option<Connection<S>> {
        match mem::replace(&mut self.kept, Kept::NoTables) {
            Kept::NoTables => None,
            Kept::Released(conn) => Some(conn),
            Kept::Taken(bank) => Some(bank.release()),
        }
    }

    fn keep(&mut self, found: Result<Bank<S>, Refused<S>>) {
        match found {
            Ok(bank) => self.kept = Kept::Taken(bank),
            Err(Refused { fault, conn }) => {
                self.kept = Kept::Released(conn);
                self.fault = fault;
            }
        }
    }

    /// Gives the bank back.
    pub fn release(&mut self) {
        if let Some(conn) = self.taken_out() {
            self.kept = Kept::Released(conn);
        }
    }

    // Makes a bank. A connection in a transaction takes none.
    fn create(&mut self) {
        if let Some(conn) = self.taken_out() {
            let made = if conn.is_autocommit() {
                create(self.alloc, conn)
            } else {
                refused(conn)
            };
            self.keep(made);
        }
    }

    // Takes the bank up anew. A connection in a transaction holds none.
    fn take_up(&mut self) {
        if let Some(conn) = self.taken_out() {
            let found = if conn.is_autocommit() {
                adopt(self.alloc, conn)
            } else {
                refused(conn)
            };
            self.keep(found);
        }
    }

    // The word if a bank is taken up, and else the fault that tells why none is.
    fn word_or_fault(&self, word: &str) -> Result<String, AllocError> {
        match &self.kept {
            Kept::Taken(_) => word.to_string(self.alloc),
            _ => self.fault.to_string(self.alloc),
        }
    }

    /// Makes a bank there, and returns whether it was made.
    pub fn make(&mut self) -> Result<String, AllocError> {
        self.create();
        self.word_or_fault("made")
    }

    /// Takes the bank up, and returns whether it was found.
    pub fn adopt(&mut self) -> Result<String, AllocError> {
        self.take_up();
        self.word_or_fault("adopted")
    }

    /// The bank, taken up anew, or why there is none.
    pub fn anew(&mut self) -> Result<&mut Bank<S>, OpenFault> {
        self.take_up();
        match &mut self.kept {
            Kept::Taken(bank) => Ok(bank),
            _ => Err(self.fault),
        }
    }

    /// Makes the call, and prints what was answered. The bank is taken up anew for it, unless the call goes
    /// on with the bank as the step before left it.
    pub fn ask(&mut self, call: &Call, list: &str, goes_on: bool) -> Result<String, AllocError> {
        if !goes_on || !matches!(self.kept, Kept::Taken(_)) {
            self.take_up();
        }
        match &mut self.kept {
            Kept::Taken(bank) => make_call(self.alloc, bank, call, list),
            _ => self.fault.to_string(self.alloc),
        }
    }

    /// The error that brought the bank down, if one did.
    pub fn cause(&self) -> Result<String, AllocError> {
        match &self.kept {
            Kept::Taken(bank) => match bank.cause() {
                Some(error) => error.to_string(self.alloc),
                None => "no cause".to_string(self.alloc),
            },
            _ => "not taken up".to_string(self.alloc),
        }
    }

    /// Replays the bank, taken up anew, and returns what that says.
    pub fn replay(&mut self) -> Result<String, AllocError> {
        self.take_up();
        match &mut self.kept {
            Kept::Taken(bank) => replayed(self.alloc, bank),
            _ => self.fault.to_string(self.alloc),
        }
    }

    /// Asks the tables, with the bank given back.
    pub fn query(&mut self, query: Query, sql: &str) -> Result<QueryAnswer, Error> {
        self.release();
        match &mut self.kept {
            Kept::Released(conn) => run_query(conn, query, sql),
            _ => Ok(QueryAnswer::Nothing),
        }
    }
}
