//! What a command says that reads what is typed.
ghost use Rattle.std.specs.Prelude.{◌≡◌, true};
ghost use Rattle.command_line.specs.Lines.{WritesOut};
ghost use Rattle.command_line.specs.Prompting.{prompt_line, task_prompt, work_prompt};

use crate::lines::say;
use crate::{Command, Task, Work};
use posting_core::Sink;

/// Where the input is typed at a terminal, says what the command waits for, if it reads any. A line that can't be
/// written is given up.
pub fn prompt<E: Sink>(command: &Command<'_>, typed: bool, faults: &mut E)
    ensures { WritesOut (prompt_line typed command.now) (E.contents faults.old) (E.contents faults.new)
        (E.calls faults.old) (E.calls faults.new) }
{
    if typed {
        say(prompt_text(command), faults);
    }
}

// The line that says it.
fn prompt_text(command: &Command<'_>) -> &'static str
    ensures { result.now ≡ prompt_line true command.now }
{
    match command {
        Command::OnFile { task, .. } => task_text(task),
        Command::Encode => "bank: waiting for a sheet of postings; end with Ctrl-D\n",
        Command::Decode { .. } => "bank: waiting for replies of 200 bytes; end with Ctrl-D\n",
        _ => "",
    }
}

// That of a task.
fn task_text(task: &Task<'_>) -> &'static str
    ensures { result.now ≡ task_prompt task.now }
{
    match task {
        Task::With(work) => work_text(work),
        _ => "",
    }
}

// That of a work.
fn work_text(work: &Work<'_>) -> &'static str
    ensures { result.now ≡ work_prompt work.now }
{
    match *work {
        Work::Post => "bank: waiting for records of 100 bytes; end with Ctrl-D\n",
        Work::Follow { .. } => "bank: waiting for entries of 308 bytes; end with Ctrl-D\n",
        _ => "",
    }
}
