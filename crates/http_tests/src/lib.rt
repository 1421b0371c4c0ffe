//! Tests of the counter over HTTP: the bytes of its answers, its limits, and ends and banks that fail at each
//! byte.
#![tactic(auto)]

#[cfg(test)]
mod connection;
#[cfg(test)]
mod crowd;
#[cfg(test)]
mod failing;
#[cfg(test)]
mod first_message;
#[cfg(test)]
mod log;
#[cfg(test)]
mod messages;
#[cfg(test)]
mod refusals;
#[cfg(test)]
mod texts;
#[cfg(test)]
mod together;
#[cfg(test)]
mod waiting;
