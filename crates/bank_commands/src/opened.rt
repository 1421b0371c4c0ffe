//! What a counter says as it has opened its file.
ghost use Rattle.std.specs.Prelude.{◌≡◌, false};

use crate::reasons::is_asked;
use command_line::{Task, Work};
use sqlite::{Alter, Connection, Error};
use sqlite_trees::store::Store;
use std::io::Write;
use std::time::Instant;

/// Says on standard error, of `serve`, how many requests the file keeps, and how long its opening took since `begun`, if
/// anybody asks for more than faults.
pub(crate) fn tell_opened<S: Alter + Drop>(
    rt: &HostRuntime,
    task: &Task<'_>,
    file: &str,
    conn: &mut Connection<S>,
    begun: Option<Instant>,
)
    requires { conn.old.in_transaction ≡ false }
    ensures { conn.new.in_transaction ≡ false }
{
    if !matches!(task, Task::Share { .. } | Task::With(Work::Serve { .. })) || !is_asked(rt) {
        return;
    }
    let Some(begun) = begun else {
        return;
    };
    if let (Ok(took), Ok(requests)) = (begun.elapsed(rt), requests_in(conn)) {
        let seconds = took.as_secs();
        let tenths = took.subsec_millis() / 100;
        let _ = writeln!(
            rt.stderr(),
            "bank: {file}: {requests} requests, opened in {seconds}.{tenths} s"
        );
    }
}

fn requests_in<S: Alter + Drop>(conn: &mut Connection<S>) -> Result<i64, Error>
    requires { conn.old.in_transaction ≡ false }
    ensures { conn.new.in_transaction ≡ false }
{
    conn.query_row("SELECT decided FROM meta", &[])?.get(0)
}
