//! Tests of what no scenario of a bank reaches: records, plans and sheets, fault by fault, the records that are
//! drawn, streams over ends and banks that fail, a client that waits for its answers, clocks, closed books, and the
//! verdict of a full bank; and the first programs of the crates' pages.
#![tactic(auto)]

#[cfg(test)]
mod clocks;
#[cfg(test)]
mod closings;
#[cfg(test)]
mod draws;
#[cfg(test)]
mod first_programs;
#[cfg(test)]
mod judging;
#[cfg(test)]
mod plans;
#[cfg(test)]
mod records;
#[cfg(test)]
mod sheets;
#[cfg(test)]
mod streams;
#[cfg(test)]
mod waiting;
