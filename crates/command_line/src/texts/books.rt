//! The help of the commands that look at a bank, copy it and carry it over.
use crate::texts::CommandTexts;

pub const AUDIT: CommandTexts = CommandTexts {
    about: "Report whether the books agree",
    at_length: "\
Count the rows of FILE and add up its balances, and print ten lines of them,
one more for each branch that doesn't have the sum of its tellers, and
`CONSISTENT` or `INCONSISTENT`. The status is 5 where it is inconsistent.",
    details: "\
A bank is consistent where accounts, tellers, branches and history have one
sum, each branch has the sum of its tellers, and history has just the posted
requests.

Example:
  bank audit bank.db

Statuses: 0 CONSISTENT, 5 INCONSISTENT, 2 no command, and with a line on
standard error
  3  store fault: FILE can't be used, is in use, or the disk failed: see
     `bank help faults`
  3  no memory: the machine refused memory
  3  write failed: standard output failed
  3  damaged rule N: FILE has rows that no history could produce
  4  no bank, foreign tables, a table defined otherwise, version N: FILE is no
     bank: see `bank help faults`",
};

pub const STATEMENT: CommandTexts = CommandTexts {
    about: "List the postings of an account",
    at_length: "\
List the postings of ACCOUNT in the bank of FILE, each with the new balance and
its reference, and its closing balance. Amounts are cents.

With dates those of these days alone are listed, between the balance before
them and the balance at their end. With a reference those alone that have it:
the balances stay those of the account and of the days, with all postings.",
    details: "\
Examples:
  bank statement bank.db 100001
  bank statement bank.db 100001 --from 2026-11-01 --to 2026-11-30
  bank statement bank.db 100001 --from 2026-11-01 --zone=-05:00
  bank statement bank.db 100001 --reference 'RENT MAY' --csv > rent.csv

A zone behind UTC is written as above, with `=`. A sheet has a line for each
posting, below the names of its columns: account, ordinal, time, teller,
branch, amount, balance, reference. A time is as 2026-11-28T09:30:00+01:00, in
the zone; amounts are in decimals, as -7.00; a reference with a comma or a
quote stands in quotes. The balances before and at the end are no lines: each
line has the balance after it. For paper `column -t -s ,` lays a sheet out.

Statuses: 0 done, 2 no command, and with a line on standard error
  3  store fault: FILE can't be used, is in use, or the disk failed: see
     `bank help faults`
  3  no memory: the machine refused memory
  3  write failed: standard output failed, or its reader has gone
  3  damaged rule N: FILE has rows that no history could produce
  4  no account N: the account isn't open
  4  no date in --from, no date in --to, no zone in --zone: it has to be as
     2026-11-28, from 1970 to 9999, or as +01:00
  4  --to is before --from
  4  no reference in --reference: it has 1 to 20 bytes of printable ASCII
  4  no bank, foreign tables, a table defined otherwise, version N: FILE is no
     bank: see `bank help faults`",
};

pub const STATEMENT_EXAMPLE: &str = "\
Example:
  bank statement bank.db 100001";

pub const STATEMENTS: CommandTexts = CommandTexts {
    about: "List the postings of all accounts",
    at_length: "\
Write the statement of each account in the bank of FILE that has a posting to be
listed, one after another by their numbers, as `bank statement` writes that of a
range of days: between the balance before them and the balance at their end.

With dates the postings of these days alone are listed, without dates all. With
a reference those alone that have it: the balances stay those of the account
and of the days, with all postings.",
    details: "\
Examples:
  bank statements bank.db
  bank statements bank.db --from 2026-11-01 --to 2026-11-30 > november
  bank statements bank.db --reference 'RENT MAY' --csv > rent.csv

Without dates the balance before is 0. A sheet has the names of its columns
once: `bank help statement` has them, and how a zone is written. The postings
of the bank are read into memory first.

Statuses: 0 done, 2 no command, and with a line on standard error
  3  store fault: FILE can't be used, is in use, or the disk failed: see
     `bank help faults`
  3  no memory: the machine refused memory, such as for the postings
  3  write failed: standard output failed, or its reader has gone
  3  damaged rule N: FILE has rows that no history could produce
  4  no date in --from, no date in --to, no zone in --zone: it has to be as
     2026-11-28, from 1970 to 9999, or as +01:00
  4  --to is before --from
  4  no reference in --reference: it has 1 to 20 bytes of printable ASCII
  4  no bank, foreign tables, a table defined otherwise, version N: FILE is no
     bank: see `bank help faults`",
};

pub const REPLAY: CommandTexts = CommandTexts {
    about: "Report whether the tables are what the rules give",
    at_length: "\
Make a new bank in memory, open the branches of FILE in it, post the requests
that FILE keeps, and compare all tables of the two. Where they are the same,
print how many requests there are, their digest, those of the plan and of the
closed numbers, and `AGREES`. Else print the first difference and `DIFFERS`;
then the status is 5.",
    details: "\
A difference is a table, a key, what stands there in FILE, and what is due:
  account 2 stands 0 due -100
  DIFFERS

A changed moment or reference, or requests cut off at the end, are not
differences, but they change the digest. The plan's is the SHA-256 of what
`bank plan` prints: it has the branches, their accounts and floors. That of the
closed numbers is over a line LAST,FIRST for each row of table `closing`, where
a seal is 0,0. Write down the lines of today, and compare them with those of
`bank digest` and of `bank replay` tomorrow. FILE stays as it is.

Example:
  bank replay bank.db

Statuses: 0 AGREES, 5 DIFFERS, 2 no command, and with a line on standard
error
  3  store fault: FILE can't be used, is in use, or the disk failed: see
     `bank help faults`
  3  no memory: the machine refused memory, such as for the new bank
  3  write failed: standard output failed
  3  damaged rule N: FILE has a value that no row of a bank can have
  4  no bank, foreign tables, a table defined otherwise, version N: FILE is no
     bank: see `bank help faults`",
};

pub const DIGEST: CommandTexts = CommandTexts {
    about: "Print the digest of the first requests",
    at_length: "\
Print N and the digest of the first N requests that FILE keeps, in the lines
that `bank replay` prints of all of them.",
    details: "\
The digest of no request is 32 zero bytes. With each request it becomes the
SHA-256 of: the digest before, the request's record of 100 bytes, its reply of
200, and the moment at which it was posted, in 8 bytes with the most
significant first, or zeros where it was not posted.

Whoever wrote down the two lines of a day can ask on a later day whether the
first N requests are still the same, with their replies and moments.

Example:
  bank digest bank.db 1000

Statuses: 0 done, 2 no command, and with a line on standard error
  3  store fault: FILE can't be used, is in use, or the disk failed: see
     `bank help faults`
  3  no memory: the machine refused memory
  3  write failed: standard output failed
  3  damaged rule N: FILE has a value that no row of a bank can have
  4  no request N: FILE keeps fewer than N requests
  4  no bank, foreign tables, a table defined otherwise, version N: FILE is no
     bank: see `bank help faults`",
};

pub const EXPORT: CommandTexts = CommandTexts {
    about: "Write the requests as records",
    at_length: "\
Write the requests that FILE keeps to standard output as records of 100 bytes,
in order, as `bank post` takes them: all of them, or those after the first N.
Requests that were refused are among them.",
    details: "\
Posted to a copy of FILE from an earlier day, they bring it up to date: what it
has already is a resend, which is posted once.

Examples, a copy that is brought up to date, and a new bank:
  bank export bank.db --after 1000 | bank post copy.db > replies
  bank init new.db
  bank plan bank.db > plan.csv
  bank load new.db plan.csv
  bank export bank.db | bank post new.db > replies

Statuses: 0 done, 2 no command, and with a line on standard error
  3  store fault: FILE can't be used, is in use, or the disk failed: see
     `bank help faults`
  3  write failed: standard output failed, or its reader has gone
  3  damaged rule N: FILE has a value that no row of a bank can have
  4  no bank, foreign tables, a table defined otherwise, version N: FILE is no
     bank: see `bank help faults`",
};

pub const LOG: CommandTexts = CommandTexts {
    about: "Write the requests as entries of a log",
    at_length: "\
Write the requests that FILE keeps to standard output as entries of 308 bytes,
in order, as `bank follow` takes them: all of them, or those after the first N.",
    details: "\
An entry is the request's record of 100 bytes, its reply of 200, and the moment
at which it was posted, in 8 bytes with the most significant first, or zeros
where it was not posted: what `bank digest` digests.

Example, a second bank with the same requests, replies and moments:
  bank init second.db
  bank plan bank.db > plan.csv
  bank log bank.db | bank follow second.db plan.csv

Statuses: 0 done, 2 no command, and with a line on standard error
  3  store fault: FILE can't be used, is in use, or the disk failed: see
     `bank help faults`
  3  write failed: standard output failed, or its reader has gone
  3  damaged rule N: FILE has a value that no row of a bank can have
  4  no request N: FILE keeps fewer than N requests
  4  no bank, foreign tables, a table defined otherwise, version N: FILE is no
     bank: see `bank help faults`",
};

pub const FOLLOW: CommandTexts = CommandTexts {
    about: "Post the entries of another bank's log",
    at_length: "\
Post the entries of standard input, which `bank log` of another bank wrote, to
the bank of FILE, each at its moment, as they come. First it prints `after N`,
how many requests FILE has, and at the end `followed N`, how many entries came.",
    details: "\
A branch of the plan CSV is opened before the first entry that needs it, so
that FILE needs no `bank load`. What FILE has already is a resend, which is
posted once: both lines of `bank digest` become those of the other bank.

An entry that gets another reply than its own ends it: an entry is missing, the
plan is another, or FILE has requests that the other bank hasn't. Then FILE
can't follow any more: make it anew, from a copy of the other bank.

Example:
  bank log bank.db --after 1000 | bank follow second.db plan.csv

Statuses: 0 done, 2 no command, and with a line on standard error
  3  store fault: FILE can't be used, is in use, or the disk is full or failed:
     see `bank help faults`
  3  no memory: the machine refused memory
  3  read failed, write failed: standard input or output failed
  3  damaged rule N: FILE has rows that no history could produce
  4  truncated N bytes: the input ended N bytes into an entry; those before it
     are posted
  4  no entry after N: what follows the first N is no entry; those N are posted
  4  plan ..: CSV is no plan: see `bank help load`
  4  no bank, foreign tables, a table defined otherwise, version N: FILE is no
     bank: see `bank help faults`
  5  entry N stands .. due ..: the reply that the Nth entry got, and its own;
     up to 63 entries after it may be posted with it",
};

pub const PLAN: CommandTexts = CommandTexts {
    about: "Write the open branches as a plan",
    at_length: "\
Write the open branches of FILE to standard output as a plan, a CSV file, as
`bank load` takes it, with the floors of those that have one.",
    details: "\
Example:
  bank plan bank.db > plan.csv

Statuses: 0 done, 2 no command, and with a line on standard error
  3  store fault: FILE can't be used, is in use, or the disk failed: see
     `bank help faults`
  3  no memory: the machine refused memory
  3  write failed: standard output failed, or its reader has gone
  3  damaged rule N: FILE has a value that no row of a bank can have
  4  no bank, foreign tables, a table defined otherwise, version N: FILE is no
     bank: see `bank help faults`",
};

pub const MIGRATE: CommandTexts = CommandTexts {
    about: "Carry over a bank of an older version",
    at_length: "\
Carry the bank of FILE, which an older version of this program made, over to
this version, and print both, as `migrated 1 to 4`. A bank of this version
stays as it is, and `already version 4` is printed.",
    details: "\
Copy both files before, FILE and the one beside it whose name ends in `-wal`,
while no command runs on them. From then on an older program answers the file
with `bank: version 4`, and the copy is the only way back.

Branches, balances, postings and the replies to resent requests stay as they
were. There are no floors then of version 1, no references of 1 and 2, and no
closed numbers of 1 to 3. A kill leaves the file of either version: give the
command again.

Example:
  cp bank.db safe.db
  cp bank.db-wal safe.db-wal
  bank migrate bank.db
  bank audit bank.db

Statuses: 0 done, 2 no command, and with a line on standard error
  3  store fault: FILE can't be used, is in use, or the disk is full or failed:
     see `bank help faults`
  3  no memory: the machine refused memory
  3  write failed: standard output failed; the bank is carried over even so
  3  damaged rule N: FILE has rows that no history could produce
  4  version N: a version that this program doesn't know, such as a later one
  4  no bank, foreign tables: FILE is no bank; anything that already has the
     name of a table to be made counts as a foreign table
  4  table T is defined otherwise: another program made that table anew",
};

pub const SEAL: CommandTexts = CommandTexts {
    about: "Seal the books: FILE decides nothing more",
    at_length: "\
Seal the bank of FILE, and print `sealed`, or `already sealed` where it was.
From now on it decides nothing more: what it decided keeps its first reply, and
any other record gets outcome 19, SEALED, and goes to another bank.",
    details: "\
Reports, replays and resends go on as before. Nothing takes a seal off: copy
both files before, FILE and the one beside it whose name ends in `-wal`, while no
command runs on them.

Example:
  bank seal bank.db

Statuses: 0 done, 2 no command, and with a line on standard error
  3  store fault: FILE can't be used, is in use, or the disk is full or failed:
     see `bank help faults`
  3  no memory: the machine refused memory
  3  write failed: standard output failed; the bank is sealed even so
  3  damaged rule N: FILE has rows that no history could produce
  4  no bank, foreign tables, a table defined otherwise, version N: FILE is no
     bank: see `bank help faults`",
};

pub const WHY: CommandTexts = CommandTexts {
    about: "Say why FILE can't be used",
    at_length: "\
Look whether the bank of FILE can be opened, and change nothing. If so, print
`it can be opened: bank audit looks at its rows`; else a line on standard error
has the fault, and at status 3 a second one says what is wrong with FILE, as far
as the system can tell.",
    details: "\
It reads FILE into memory. A full disk shows only as a command writes: run that
at a terminal, or with BANK_WHY in the environment, which adds the second line.

Example:
  bank why bank.db

Statuses:
  0  done; of `post` also where records were refused
  2  the words are no command
  3  memory, FILE, the network, a read or a write failed, or FILE is damaged
  4  the input or FILE isn't what the command takes
  5  `load` found a branch open with other accounts or another floor, `audit`
     printed INCONSISTENT, `replay` printed DIFFERS, or a reply of `follow`
     is another than its entry's

At 3, 4, and 5 of `follow`, a line on standard error says why, and
`bank help COMMAND` has the lines of each. Whatever it says, nothing that was
acknowledged is lost: mend the cause, and resend what got no reply. Of any
command:
  store fault (3), one of:
    the disk is full, or failed
    FILE is in use by another `bank`, such as `serve`, or by a program that
    reads it: copy FILE and FILE-wal while neither runs, and read the copies
    FILE can't be read or written with your rights
    FILE is a folder, or is to be made in a folder that isn't there
    FILE is no SQLite database, or one in UTF-16 or with auto_vacuum
    FILE has a view, a table or a column of somebody else's that this
    program can't read, such as one with OVER, FILTER, FULL JOIN or FTS5: drop it
    FILE has a second hard link
    FILE stands beside a FILE-wal of another copy, such as a newer one
    `load` was given CSV first, and FILE second
  damaged rule N (3): FILE has rows that no history could produce: put both
    files of the last backup in their place
  no bank (4): there is no FILE, or it has no bank
  foreign tables (4): another table has the name of a bank's; or one of a
    bank's tables has an index with WHERE or of an expression, or a trigger
  table T is defined otherwise (4): another program made that table anew, so
    that its rows may mean something else: docs/USING.md says how to put the
    rows into a new FILE
  version N (4): the bank is of another version: see `bank help migrate`",
};
