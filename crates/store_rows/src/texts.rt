//! The statements, letter for letter.

/// Makes the table `meta`.
pub(crate) const MAKE_META: &str = "CREATE TABLE meta (id INTEGER PRIMARY KEY CHECK (id = 1), \
     version INTEGER NOT NULL, decided INTEGER NOT NULL) STRICT";

/// Makes the table `branch`.
pub(crate) const MAKE_BRANCH: &str = "CREATE TABLE branch (bid INTEGER PRIMARY KEY, \
     accounts INTEGER NOT NULL, balance INTEGER NOT NULL) STRICT";

/// Makes the table `teller`.
pub(crate) const MAKE_TELLER: &str =
    "CREATE TABLE teller (tid INTEGER PRIMARY KEY, balance INTEGER NOT NULL) STRICT";

/// Makes the table `account`.
pub(crate) const MAKE_ACCOUNT: &str =
    "CREATE TABLE account (aid INTEGER PRIMARY KEY, balance INTEGER NOT NULL) STRICT";

/// Makes the table `history`.
pub(crate) const MAKE_HISTORY: &str =
    "CREATE TABLE history (ordinal INTEGER PRIMARY KEY, aid INTEGER NOT NULL, tid INTEGER NOT NULL, \
     bid INTEGER NOT NULL, delta INTEGER NOT NULL, moment INTEGER NOT NULL) STRICT";

/// Makes the table `request`.
pub(crate) const MAKE_REQUEST: &str =
    "CREATE TABLE request (ordinal INTEGER PRIMARY KEY, tid INTEGER NOT NULL, number INTEGER NOT NULL, \
     aid INTEGER NOT NULL, bid INTEGER NOT NULL, delta INTEGER NOT NULL, outcome INTEGER NOT NULL, \
     balance INTEGER NOT NULL, UNIQUE (tid, number)) STRICT";

/// Makes the table `branch_floor`.
pub(crate) const MAKE_FLOOR: &str =
    "CREATE TABLE branch_floor (bid INTEGER PRIMARY KEY, lowest INTEGER NOT NULL) STRICT";

/// Makes the table `request_reference`.
pub(crate) const MAKE_REFERENCE: &str =
    "CREATE TABLE request_reference (ordinal INTEGER PRIMARY KEY, reference TEXT NOT NULL) STRICT";

/// Makes the table `closing`.
pub(crate) const MAKE_CLOSING: &str =
    "CREATE TABLE closing (last INTEGER PRIMARY KEY, first INTEGER NOT NULL) STRICT";

/// The statements that make the tables of a bank, in this order.
pub const MAKE_TABLES: &[&str] = &[
    MAKE_META,
    MAKE_BRANCH,
    MAKE_TELLER,
    MAKE_ACCOUNT,
    MAKE_HISTORY,
    MAKE_REQUEST,
    MAKE_FLOOR,
    MAKE_REFERENCE,
    MAKE_CLOSING,
];

/// The row of meta.
pub(crate) const GET_META: &str = "SELECT version, decided FROM meta WHERE id = ?1";

/// Another number of decided requests.
pub(crate) const SET_META: &str = "UPDATE meta SET decided = ?2 WHERE id = ?1";

/// Another version of the tables.
pub(crate) const SET_VERSION: &str = "UPDATE meta SET version = ?2 WHERE id = ?1";

/// The first row of meta.
pub(crate) const ADD_META: &str = "INSERT INTO meta (id, version, decided) VALUES (?1, ?2, ?3)";

/// A branch.
pub(crate) const GET_BRANCH: &str = "SELECT bid, accounts, balance FROM branch WHERE bid = ?1";

/// The branch with the least number above one.
pub(crate) const NEXT_BRANCH: &str =
    "SELECT bid, accounts, balance FROM branch WHERE bid > ?1 ORDER BY bid LIMIT 1";

/// Another balance of a branch.
pub(crate) const SET_BRANCH: &str = "UPDATE branch SET balance = ?2 WHERE bid = ?1";

/// A branch more.
pub(crate) const ADD_BRANCH: &str =
    "INSERT INTO branch (bid, accounts, balance) VALUES (?1, ?2, ?3)";

/// A teller's balance.
pub(crate) const GET_TELLER: &str = "SELECT balance FROM teller WHERE tid = ?1";

/// Another balance of a teller.
pub(crate) const SET_TELLER: &str = "UPDATE teller SET balance = ?2 WHERE tid = ?1";

/// A teller more.
pub(crate) const ADD_TELLER: &str = "INSERT INTO teller (tid, balance) VALUES (?1, ?2)";

/// An account's balance.
pub(crate) const GET_ACCOUNT: &str = "SELECT balance FROM account WHERE aid = ?1";

/// Another balance of an account.
pub(crate) const SET_ACCOUNT: &str = "UPDATE account SET balance = ?2 WHERE aid = ?1";

/// An account more.
pub(crate) const ADD_ACCOUNT: &str = "INSERT INTO account (aid, balance) VALUES (?1, ?2)";

/// A posting more.
pub(crate) const ADD_HISTORY: &str =
    "INSERT INTO history (ordinal, aid, tid, bid, delta, moment) VALUES (?1, ?2, ?3, ?4, ?5, ?6)";

/// Eight postings more.
pub(crate) const ADD_EIGHT_POSTINGS: &str =
    "INSERT INTO history (ordinal, aid, tid, bid, delta, moment) \
     VALUES (?1, ?2, ?3, ?4, ?5, ?6), (?7, ?8, ?9, ?10, ?11, ?12), (?13, ?14, ?15, ?16, ?17, ?18), \
     (?19, ?20, ?21, ?22, ?23, ?24), (?25, ?26, ?27, ?28, ?29, ?30), (?31, ?32, ?33, ?34, ?35, ?36), \
     (?37, ?38, ?39, ?40, ?41, ?42), (?43, ?44, ?45, ?46, ?47, ?48)";

/// A decided request more.
pub(crate) const ADD_REQUEST: &str =
    "INSERT INTO request (ordinal, tid, number, aid, bid, delta, outcome, balance) \
     VALUES (?1, ?2, ?3, ?4, ?5, ?6, ?7, ?8)";

/// Eight decided requests more.
pub(crate) const ADD_EIGHT_REQUESTS: &str =
    "INSERT INTO request (ordinal, tid, number, aid, bid, delta, outcome, balance) \
     VALUES (?1, ?2, ?3, ?4, ?5, ?6, ?7, ?8), (?9, ?10, ?11, ?12, ?13, ?14, ?15, ?16), \
     (?17, ?18, ?19, ?20, ?21, ?22, ?23, ?24), (?25, ?26, ?27, ?28, ?29, ?30, ?31, ?32), \
     (?33, ?34, ?35, ?36, ?37, ?38, ?39, ?40), (?41, ?42, ?43, ?44, ?45, ?46, ?47, ?48), \
     (?49, ?50, ?51, ?52, ?53, ?54, ?55, ?56), (?57, ?58, ?59, ?60, ?61, ?62, ?63, ?64)";

/// The request of a teller under a number.
pub(crate) const GET_REQUEST: &str =
    "SELECT ordinal, tid, number, aid, bid, delta, outcome, balance FROM request \
     WHERE tid = ?1 AND number = ?2";

/// The floor of a branch.
pub(crate) const GET_FLOOR: &str = "SELECT bid, lowest FROM branch_floor WHERE bid = ?1";

/// A floor more.
pub(crate) const ADD_FLOOR: &str = "INSERT INTO branch_floor (bid, lowest) VALUES (?1, ?2)";

/// The reference of a decided request.
pub(crate) const GET_REFERENCE: &str =
    "SELECT ordinal, reference FROM request_reference WHERE ordinal = ?1";

/// A reference more.
pub(crate) const ADD_REFERENCE: &str =
    "INSERT INTO request_reference (ordinal, reference) VALUES (?1, ?2)";

/// The closed numbers up to a key.
pub(crate) const GET_CLOSING: &str = "SELECT last, first FROM closing WHERE last = ?1";

/// The closed numbers with the least last key above one.
pub(crate) const NEXT_CLOSING: &str =
    "SELECT last, first FROM closing WHERE last > ?1 ORDER BY last LIMIT 1";

/// Closed numbers more.
pub(crate) const ADD_CLOSING: &str = "INSERT INTO closing (last, first) VALUES (?1, ?2)";

/// The request with the least ordinal above one.
pub(crate) const NEXT_REQUEST: &str = "SELECT ordinal, tid, number, aid, bid, delta, outcome, \
    balance FROM request WHERE ordinal > ?1 ORDER BY ordinal LIMIT 1";

/// The posting with the least ordinal above one.
pub(crate) const NEXT_POSTING: &str = "SELECT ordinal, aid, tid, bid, delta, moment FROM history \
    WHERE ordinal > ?1 ORDER BY ordinal LIMIT 1";

/// The reference with the least ordinal above one.
pub(crate) const NEXT_REFERENCE: &str = "SELECT ordinal, reference FROM request_reference \
    WHERE ordinal > ?1 ORDER BY ordinal LIMIT 1";

/// Names every column of `meta`.
pub(crate) const PROBE_META: &str = "SELECT id, version, decided FROM meta";

/// Names every column of `branch`.
pub(crate) const PROBE_BRANCH: &str = "SELECT bid, accounts, balance FROM branch";

/// Names every column of `teller`.
pub(crate) const PROBE_TELLER: &str = "SELECT tid, balance FROM teller";

/// Names every column of `account`.
pub(crate) const PROBE_ACCOUNT: &str = "SELECT aid, balance FROM account";

/// Names every column of `history`.
pub(crate) const PROBE_HISTORY: &str = "SELECT ordinal, aid, tid, bid, delta, moment FROM history";

/// Names every column of `request`.
pub(crate) const PROBE_REQUEST: &str =
    "SELECT ordinal, tid, number, aid, bid, delta, outcome, balance FROM request";

/// Names every column of `branch_floor`.
pub(crate) const PROBE_FLOOR: &str = "SELECT bid, lowest FROM branch_floor";

/// Names every column of `request_reference`.
pub(crate) const PROBE_REFERENCE: &str = "SELECT ordinal, reference FROM request_reference";

/// Names every column of `closing`.
pub(crate) const PROBE_CLOSING: &str = "SELECT last, first FROM closing";

// ---- the statements of the walks of `walked_rows`. Each but the last shows the rows that come next, by rising keys, at
// most 64 of them.

/// The branches from a number on.
pub const BRANCHES_FROM: &str =
    "SELECT bid, accounts, balance FROM branch WHERE bid >= ?1 ORDER BY bid LIMIT 64";

/// The tellers from a number on.
pub const TELLERS_FROM: &str =
    "SELECT tid, balance FROM teller WHERE tid >= ?1 ORDER BY tid LIMIT 64";

/// The accounts from a number on.
pub const ACCOUNTS_FROM: &str =
    "SELECT aid, balance FROM account WHERE aid >= ?1 ORDER BY aid LIMIT 64";

/// The postings from a number on.
pub const POSTINGS_FROM: &str =
    "SELECT ordinal, aid, tid, bid, delta, moment FROM history WHERE ordinal >= ?1 ORDER BY ordinal LIMIT 64";

/// The decided requests from a number on.
pub const REQUESTS_FROM: &str =
    "SELECT ordinal, tid, number, aid, bid, delta, outcome, balance FROM request WHERE ordinal >= ?1 ORDER BY ordinal LIMIT 64";

/// The rows of `meta` from a number on.
pub const METAS_FROM: &str =
    "SELECT id, version, decided FROM meta WHERE id >= ?1 ORDER BY id LIMIT 64";

/// The floors from a branch on.
pub const FLOORS_FROM: &str =
    "SELECT bid, lowest FROM branch_floor WHERE bid >= ?1 ORDER BY bid LIMIT 64";

/// The references from an ordinal on.
pub const REFERENCES_FROM: &str =
    "SELECT ordinal, reference FROM request_reference WHERE ordinal >= ?1 ORDER BY ordinal LIMIT 64";

/// The closed numbers from a last key on.
pub const CLOSINGS_FROM: &str =
    "SELECT last, first FROM closing WHERE last >= ?1 ORDER BY last LIMIT 64";

/// The postings of an account from an ordinal on.
pub const POSTINGS_OF: &str =
    "SELECT ordinal, aid, tid, bid, delta, moment FROM history WHERE aid = ?1 AND ordinal >= ?2 ORDER BY ordinal LIMIT 64";

/// The reference of the request with an ordinal.
pub const REFERENCE_UNDER: &str = "SELECT reference FROM request_reference WHERE ordinal = ?1";
