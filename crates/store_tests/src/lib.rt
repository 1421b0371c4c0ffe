//! Tests of the bank in tables that no scenario reaches: machines that crash at each call on a file, life after
//! life, files of earlier versions, files that fail while a bank is read, reports that are cut, and the first
//! programs of the libraries.
#![tactic(auto)]

#[cfg(test)]
mod calls;
#[cfg(test)]
mod cases;
#[cfg(test)]
mod drawn;
#[cfg(test)]
mod earlier;
#[cfg(test)]
mod failures;
#[cfg(test)]
mod files;
#[cfg(test)]
mod first_programs;
#[cfg(test)]
mod first_report;
#[cfg(test)]
mod lives;
#[cfg(test)]
mod readings;
#[cfg(test)]
mod reports;
#[cfg(test)]
mod sql;
#[cfg(test)]
mod stops;
#[cfg(test)]
mod tasks;
