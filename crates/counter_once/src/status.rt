//! How the program ends.
ghost use Rattle.std.specs.Prelude.{◌≡◌};
ghost use Rattle.std.specs.Process.{exit_status};
ghost use Rattle.counter_once.specs.Statuses.{status_after};

use posting_core::OnceFault;
use std::process::ExitCode;

/// The exit status where the input ended within the record.
const INPUT_FAULT: u8 = 4;

/// The exit status where memory was refused, or a read or a write failed.
const SYSTEM_FAULT: u8 = 3;

/// The status after the first record: 0 where it got its reply, a refusal too.
pub fn exit_code(end: Result<(), OnceFault>) -> ExitCode
    ensures { exit_status result ≡ status_after end }
{
    match end {
        Ok(()) => ExitCode::SUCCESS,
        Err(OnceFault::Short) => ExitCode::from(INPUT_FAULT),
        Err(OnceFault::Read | OnceFault::Write | OnceFault::Bank(_)) => {
            ExitCode::from(SYSTEM_FAULT)
        }
    }
}
