//! The help of the commands that make a bank and post to it, and of sheets.
use crate::texts::CommandTexts;

pub const INIT: CommandTexts = CommandTexts {
    about: "Make a new bank in FILE",
    at_length: "\
Make a new bank in FILE, and print `created`. The bank has no branch yet:
`bank load` opens them.",
    details: "\
Example:
  bank init bank.db

Statuses: 0 done, 2 no command, and with a line on standard error
  3  store fault: there is no such folder, FILE is a folder or no database, is
     in use or not yours, or the disk is full or failed: see `bank help faults`
  3  no memory: the machine refused memory
  3  write failed: standard output failed
  4  already a bank: FILE has one, which is left as it is",
};

pub const INIT_EXAMPLE: &str = "\
Example:
  bank init bank.db";

pub const LOAD: CommandTexts = CommandTexts {
    about: "Open the branches of a plan",
    at_length: "\
Open the branches of a plan in the bank of FILE, and print
`opened N already N differs N`: how many branches this opened, how many were
open already on the same terms, and how many with another count or floor.",
    details: "\
A plan is a CSV file. Its first line is the header `branch,accounts`, and each
line after it is a branch: the branch's number, from 1 to 9999, and its count
of accounts, from 1 to 100000. This plan has two branches:
  branch,accounts
  1,100000
  2,500

A third column gives the floor of a branch: the lowest balance allowed for its
accounts, in cents, 0 or below, and empty for none:
  branch,accounts,floor
  1,100000,-50000
  2,500,

Example:
  bank load bank.db plan.csv

Statuses: 0 done, 2 no command, 5 where a branch differs, and with a line on
standard error
  3  store fault: FILE can't be used, is in use, the disk is full or failed, or
     FILE and CSV are swapped: see `bank help faults`
  3  no memory: the machine refused memory
  3  write failed: standard output failed
  3  damaged rule N: FILE has rows that no history could produce
  4  plan unreadable: there is no CSV, or it can't be read
  4  plan header: the first line is no header; semicolons, tabs, capitals and
     UTF-16 make it none
  4  plan row N columns, branch, accounts, floor: that is wrong in row N, where
     row 1 comes after the header; a line of commas alone is a row
  4  plan row N twice: an earlier row has the branch
  4  no bank, foreign tables, a table defined otherwise, version N: FILE is no
     bank: see `bank help faults`",
};

pub const POST: CommandTexts = CommandTexts {
    about: "Post records from standard input",
    at_length: "\
Post the records of standard input to the bank of FILE, and write their
replies to standard output, in order.",
    details: "\
A record has 100 bytes of ASCII, and no line end follows it:
  tag        4 bytes  DC01
  account   12 bytes  digits
  teller     8 bytes  digits
  branch     6 bytes  digits
  number    10 bytes  digits, new for this teller; a resend has the same
  amount    11 bytes  a sign, + or -, and 10 digits, in cents
  filler    49 bytes  spaces
A record whose tag is DC02 has a reference of 20 bytes after its amount, which
a statement shows, and 29 spaces after that. Each reply has 200 bytes, and no
line end.

Examples:
  bank post bank.db < records > replies
  fold -w 200 replies
  tr -d '\\r\\n' < lines | bank post bank.db > replies

Statuses: 0 done, also where records were refused, 2 no command, and with a
line on standard error
  3  store fault: FILE can't be used, is in use, or the disk is full or failed:
     see `bank help faults`
  3  no memory: the machine refused memory
  3  read failed, write failed: standard input or output failed, or its reader
     has gone
  3  damaged rule N: FILE has rows that no history could produce
  4  truncated N bytes: the input ended N bytes into a record; those before it
     were answered. With records made by hand it comes in three ways:
       each line has a record   a line end is a byte like others, so all but
                                the first are MALFORMED: take line ends out
       lines end in CR LF       take out both, as `tr` does above
       spaces were cut off      a record has all its 100 bytes: fill it again
  4  no bank, foreign tables, a table defined otherwise, version N: FILE is no
     bank: see `bank help faults`
What got no reply may have been posted: resend it, and it is posted once.",
};

pub const DRIVE: CommandTexts = CommandTexts {
    about: "Post records that the driver draws",
    at_length: "\
Post records that the driver of the benchmark draws over the branches of FILE,
and print `records N posted N refused N`: how many records there were, how many
of them were posted, and how many got another outcome.",
    details: "\
Each record names a teller, drawn over all tellers, the teller's branch, and an
account by the 85/15 rule: in 85 of 100 cases, or where one branch is open, it
is drawn over the accounts of that branch, and else over those of all other
branches. The amount is drawn from -999999 to +999999 cents.

The numbers of each teller start at 1, so this is meant for a file without
postings. The same seed draws the same records again over the same branches:
they are a resend, which gets the first replies again and posts nothing twice.

Example:
  bank drive bank.db --seed 7 --count 1000

Statuses: 0 done, 2 no command, and with a line on standard error
  3  store fault: FILE can't be used, is in use, or the disk is full or failed:
     see `bank help faults`
  3  no memory: the machine refused memory
  3  write failed: standard output failed
  3  damaged rule N: FILE has rows that no history could produce
  4  no branches: none is open
  4  no bank, foreign tables, a table defined otherwise, version N: FILE is no
     bank: see `bank help faults`",
};

pub const SERVE: CommandTexts = CommandTexts {
    about: "Serve the bank over HTTP",
    at_length: "\
Serve the bank of FILE over HTTP at ADDR. It prints `listening ` and the
address with its port, and serves up to 256 connections at once. With
--connections it exits once N were served, else it goes on until it is killed.",
    details: "\
Requests:
  POST /post            the body is a record of 100 bytes; the answer's body is
                        its reply of 200 bytes
  GET /account/NUMBER   the balance of an open account
  GET /teller/NUMBER    the balance of an open teller: all that it posted
  GET /branches         the open branches, one in a line
  GET /log/N            up to 192 entries after the first N, as `bank log`
                        writes them
  GET /plan             the open branches as a plan, as `bank plan` writes it
  GET /health           `ok`, without a look at the bank
  GET /metrics          how it goes, in the text that Prometheus reads: what was
                        replied since the start, connections and seconds

The records that come while the bank is busy are posted together. A connection
may carry many requests. ADDR is a host and a port, and port 0 takes one that
is free. It is meant for a network that is trusted: anybody who reaches the
address may post.

A client that is slow loses its connection, and holds up no other. Limits:
60 s to the next request, 10 s for a whole request, 10 s in which no byte of an
answer is taken. Where 256 are connected, whoever is idle longest gives way to
the next. A request cut off this way may or may not have been posted. Resend it
on another connection: it is posted once, and gets its first reply.

With --quorum and --name machines share a log, and a posting is answered once a
quorum of etcd's members has its entry there. Put 20 zeros under the key
bank/NAME/end once, and open the plan's branches on each machine by `load`. At
its start the bank follows the log to its end, appends what only it has, and
prints `quorum held N holds N`, before `listening`. Where no quorum answers it
asks again for up to 32 s, then answers 503 and ends with status 3. With --standby
it follows that log until standard input gives something or ends, and serves then.

Examples:
  bank serve bank.db 127.0.0.1:8080
  bank serve bank.db 127.0.0.1:8080 --quorum 127.0.0.1:2379 --name office
  curl --data-binary @record http://127.0.0.1:8080/post
  curl http://127.0.0.1:8080/branches

Statuses: 0 after N connections, 2 no command, and with a line on standard
error
  3  no quorum: HOST:PORT is no member, most members are away, or there is no
     log NAME
  3  network failed: ADDR is in use, is of another machine, has an unknown
     host, has no port or one above 65535, or has a port that needs rights
  3  store fault: FILE can't be used, is in use, or the disk is full or failed:
     see `bank help faults`
  3  no memory: the machine refused memory
  3  write failed: standard output failed
  3  damaged rule N: FILE has rows that no history could produce
  5  entry N is another than the quorum's: FILE has postings that nobody was
     told of; make it anew, by `init` and `load`
  5  entry N stands .. due ..: FILE lacks a branch of the plan, or its floor is
     another
  4  no bank, foreign tables, a table defined otherwise, version N: FILE is no
     bank: see `bank help faults`",
};

pub const ENCODE: CommandTexts = CommandTexts {
    about: "Make records of a sheet of postings",
    at_length: "\
Read a sheet of postings, a CSV file, from standard input, check all of it, and
write the record of each to standard output, as `bank post` takes it. It touches
no bank.",
    details: "\
The first line is a header, and each line after it is a posting: its account,
its teller, the teller's own number for it, and how many cents are added to the
account, with a sign or without one:
  account,teller,number,delta
  1,1,1,500
  100001,1,2,-700

With `amount` in place of `delta` money has a point and two digits of cents, or
neither, as 5.00, -7.00 and 12. A sheet with semicolons and 12,50 is turned
first, if no reference has a comma or a semicolon:
  sed 's/,/./g; s/;/,/g' export.csv > postings.csv

Two columns may follow, `branch` and `reference`, one or both in this order. A
posting without a branch gets the teller's, and one without a reference none:
  account,teller,number,delta,reference
  1,1,3,25000,rent of May

Example:
  bank encode < postings.csv | bank post bank.db | bank decode

Statuses: 0 done, 2 no command, and with a line on standard error
  3  no memory: the machine refused memory
  3  read failed, write failed: standard input or output failed, or its reader
     has gone
  4  postings header: the first line is no header; semicolons, tabs, capitals
     and UTF-16 make it none
  4  postings row N columns, account, teller, number, delta or amount, branch,
     reference: that is wrong in row N, where row 1 comes after the header. Then
     nothing is written",
};

pub const DECODE: CommandTexts = CommandTexts {
    about: "Make a sheet of replies",
    at_length: "\
Read replies, as `bank post` writes them, from standard input, and write a sheet
of them, a CSV file, to standard output. It touches no bank. With --sheet FILE,
the sheet of postings that was encoded, each reply has its row there too.",
    details: "\
The sheet has a header, and a line for each reply:
  outcome,name,account,teller,branch,number,delta,balance
  0,POSTED,1,1,1,1,500,500
  13,NO ACCOUNT,4,1,1,2,500,

Amounts are cents; with --words they are decimals, as 5.00 and -7.00, and the
column is `amount`. A record that was not posted has no balance, and one that was
MALFORMED none of the fields after its name.

With --sheet FILE two columns follow: `row`, the number of the posting's row in
FILE after the header, and `reference`, the posting's own. The Nth reply answers
row N; rows that have no reply yet are left out:
  13,NO ACCOUNT,4,1,1,2,500,,2,rent of May

Examples:
  bank decode < replies > replies.csv
  bank decode --words --sheet postings.csv < replies > replies.csv

Statuses: 0 done, 2 no command, and with a line on standard error
  3  no memory: the machine refused memory
  3  read failed, write failed: standard input or output failed, or its reader
     has gone
  4  truncated N bytes: the input ended N bytes into a reply
  4  reply N faulty tag, or another field: the Nth 200 bytes are no reply
  4  postings unreadable: FILE can't be opened or read
  4  postings header, postings row N ..: as of `bank encode`, in FILE
  4  row N is another posting: reply N answers another one than row N of FILE
  4  more replies than rows: FILE has no row for a reply
At 4 the lines of the replies before it are written.",
};
