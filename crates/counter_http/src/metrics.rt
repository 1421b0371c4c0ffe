//! The figures of a counter, in the text that Prometheus reads.
ghost use Rattle.std.specs.Prelude.{◌≡◌, IfOk, string_bytes};
ghost use Rattle.counter_http.specs.Figures.{figures_text};

use crate::figures::{Figures, Tally};
use std::alloc::{AllocError, Global};
use std::fmt;

const POSTINGS: &str =
    "# HELP bank_postings_total Records replied to with outcome 00; one that is sent again counts again.\n# TYPE bank_postings_total counter\n";

const REFUSALS: &str =
    "# HELP bank_refusals_total Records replied to with another outcome; one that is sent again counts again.\n# TYPE bank_refusals_total counter\n";

const RECORDS: &str =
    "# HELP bank_records_total Records replied to.\n# TYPE bank_records_total counter\n";

const COMMITS: &str =
    "# HELP bank_commits_total Transactions by which those records were taken.\n# TYPE bank_commits_total counter\n";

const CONNECTIONS: &str =
    "# HELP bank_connections Clients that are connected.\n# TYPE bank_connections gauge\n";

const UPTIME: &str =
    "# HELP bank_uptime_seconds Seconds since the counter began to serve.\n# TYPE bank_uptime_seconds gauge\n";

// A number with its name.
#[derive(Clone, Copy)]
struct Sample(&'static str, u64);

impl fmt::Display for Sample {
    ghost use Rattle.std.specs.Prelude.{Some};
    ghost use Rattle.counter_http.specs.Figures.{sample};

    ghost output = { λ it. Some (sample it.0.now it.1) };

    fn fmt<W: fmt::Write>(&self, f: &mut fmt::Formatter<W>) -> fmt::Result {
        let name = self.0;
        let value = self.1;
        write!(f, "{name} {value}\n")
    }
}

// How many records weren't posted, by outcome.
#[derive(Clone, Copy)]
struct Refusals(Tally);

impl fmt::Display for Refusals {
    ghost use Rattle.std.specs.Prelude.{Some};
    ghost use Rattle.counter_http.specs.Figures.{refusals_text};

    ghost output = { λ it. Some (refusals_text it.0) };

    fn fmt<W: fmt::Write>(&self, f: &mut fmt::Formatter<W>) -> fmt::Result {
        let tally = self.0;
        let a = Sample("bank_refusals_total{outcome=\"11\"}", tally.no_teller);
        let b = Sample("bank_refusals_total{outcome=\"12\"}", tally.wrong_branch);
        let c = Sample("bank_refusals_total{outcome=\"13\"}", tally.no_account);
        let d = Sample("bank_refusals_total{outcome=\"14\"}", tally.over_limit);
        let e = Sample("bank_refusals_total{outcome=\"15\"}", tally.reused_number);
        let g = Sample("bank_refusals_total{outcome=\"16\"}", tally.full);
        let h = Sample("bank_refusals_total{outcome=\"17\"}", tally.below_floor);
        let i = Sample("bank_refusals_total{outcome=\"18\"}", tally.closed);
        let j = Sample("bank_refusals_total{outcome=\"19\"}", tally.sealed);
        let k = Sample("bank_refusals_total{outcome=\"90\"}", tally.malformed);
        write!(f, "{REFUSALS}{a}{b}{c}{d}{e}{g}{h}{i}{j}{k}")
    }
}

impl fmt::Display for Figures {
    ghost use Rattle.std.specs.Prelude.{Some};
    ghost use Rattle.counter_http.specs.Figures.{figures_text};

    ghost output = { λ figures. Some (figures_text figures) };

    fn fmt<W: fmt::Write>(&self, f: &mut fmt::Formatter<W>) -> fmt::Result {
        let tally = self.tally;
        let posted = Sample("bank_postings_total", tally.posted);
        let refusals = Refusals(tally);
        let records = Sample("bank_records_total", tally.records);
        let commits = Sample("bank_commits_total", tally.commits);
        let connections = Sample("bank_connections", self.connections);
        let uptime = Sample("bank_uptime_seconds", self.seconds);
        write!(
            f,
            "{POSTINGS}{posted}{refusals}{RECORDS}{records}{COMMITS}{commits}{CONNECTIONS}{connections}{UPTIME}{uptime}"
        )
    }
}

/// The text of the figures.
pub(crate) fn text_of(alloc: Global, figures: &Figures) -> Result<String, AllocError>
    ensures { IfOk result (λ text. string_bytes text ≡ figures_text figures.now) }
{
    figures.to_string(alloc)
}
