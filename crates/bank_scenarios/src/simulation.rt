//! Simulations: from a seed a plan and mixed records are drawn, which a bank in tables is given in many ways, life after
//! life, while its store stops at any call; replies, tables, statements and audits are compared with what the bank in
//! memory answered. What keeps the files, and lets them stop, plays a `Simulation` life by life.
mod asking;
mod counts;
mod history;
mod lives;
mod messages;
mod reports;

pub use asking::{Asked, Came, End, ask_counter};
pub use counts::Counts;
pub use history::{History, Part};
pub use lives::Simulation;
pub use messages::Script;
