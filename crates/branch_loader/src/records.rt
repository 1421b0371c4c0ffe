//! What gives the records of a plan, and why it gives none.
ghost use Rattle.std.specs.Prelude.{◌≡◌, true, List, [], ◌∷◌, Option, None, IfOk, IfErr, OnOk};
ghost use Rattle.csv.specs.Reading.{error_kind, stops_reader};
ghost use Rattle.csv.specs.Records.{fields_of};
ghost use Rattle.posting_core.specs.believed.EndCalls.{GrowsBy};
ghost use Rattle.branch_loader.specs.Records.{Records, RecordCall, TakesRecord, record_call};

use csv::{ByteRecord, Error, Reader};
use std::io::Read;

/// Records one after another: those that csv reads.
pub trait RecordSource {
    /// It takes records of any length, and is between two of them.
    ghost is_plain: { Self → Type 0 };

    /// It has these records left.
    ghost has_left: { Self → Records → Type 0 };

    /// What it returned so far, where that is known.
    ghost calls: { Self → Option (List RecordCall) } = { λ _. None };

    /// Takes the next record, if there is one. It fails where its source failed or memory was refused, and
    /// not otherwise.
    fn next(&mut self, fields: &mut ByteRecord) -> Result<bool, Error>
        requires { is_plain self.old }
        ensures plain { OnOk result (is_plain self.new) }
        ensures takes { IfOk result (λ found. (rows : Records) → has_left self.old rows
            → TakesRecord found (fields_of fields.new) rows (has_left self.new)) }
        ensures stops { IfErr result (λ e. stops_reader (error_kind e) ≡ true) }
        ensures tells { GrowsBy (calls self.old) (calls self.new) (record_call result ∷ []) };
}

impl<R: Read> RecordSource for Reader<R> {
    ghost use Rattle.branch_loader.specs.Records.{HasLeft, IsPlain};

    ghost is_plain = { IsPlain };

    ghost has_left = { HasLeft R.remaining };

    fn next(&mut self, fields: &mut ByteRecord) -> Result<bool, Error> {
        self.read_byte_record(fields)
    }
}
