//! The first program of `command_line`.
use command_line::{Command, Task, Work, read_words};
use std::alloc::Global;

pub fn first_words<'a>(alloc: Global, words: &'a [&'a str]) -> Option<(&'a str, u64, u64)> {
    match read_words(alloc, words) {
        Ok(
            Command::OnFile {
                file,
                task: Task::With(Work::Drive { seed, count }),
            },
        ) => Some((file, seed, count)),
        _ => None,
    }
}
