//! Which field of a record is faulty.
ghost use Rattle.std.specs.Prelude.{◌≡◌};
ghost use Rattle.message_records.specs.Faults.{fault_text, request_fault_text};

use std::fmt;

/// The first faulty field of a request, from the left.
#[derive(Clone, Copy, Debug, PartialEq, Eq)]
pub enum Bad {
    /// Bytes 0..4 are neither `DC01` nor `DC02`.
    Tag,
    /// Bytes 4..16 aren't twelve digits of 1..=`MAX_ACCOUNT`.
    Account,
    /// Bytes 16..24 aren't eight digits of 1..=`MAX_TELLER`.
    Teller,
    /// Bytes 24..30 aren't six digits of 1..=`MAX_BRANCH`.
    Branch,
    /// Bytes 30..40 aren't ten digits of 1..=`MAX_NUMBER`.
    Number,
    /// Bytes 40..51 aren't a sign and ten digits. Zero has the sign `+`.
    Delta,
    /// Bytes 51..71 of a `DC02` aren't printable ASCII, from the space to `~`.
    Reference,
    /// Bytes 51..100 of a `DC01`, or 71..100 of a `DC02`, aren't spaces.
    Filler,
}

/// The first faulty field of a reply, from the left. Where the outcome is `Malformed`, the five fields of the
/// request are zeros.
#[derive(Clone, Copy, Debug, PartialEq, Eq)]
pub enum BadReply {
    /// Bytes 0..4 aren't `DR01`.
    Tag,
    /// Bytes 4..6 aren't the code of an outcome.
    Outcome,
    /// Bytes 6..18 aren't twelve digits of 1..=`MAX_ACCOUNT`.
    Account,
    /// Bytes 18..26 aren't eight digits of 1..=`MAX_TELLER`.
    Teller,
    /// Bytes 26..32 aren't six digits of 1..=`MAX_BRANCH`.
    Branch,
    /// Bytes 32..42 aren't ten digits of 1..=`MAX_NUMBER`.
    Number,
    /// Bytes 42..53 aren't a sign and ten digits. Zero has the sign `+`.
    Delta,
    /// Bytes 53..66 aren't a sign and twelve digits, or aren't zero where the request wasn't posted.
    Balance,
    /// Bytes 66..82 aren't the outcome's name with spaces after it.
    Name,
    /// Bytes 82..200 aren't spaces.
    Filler,
}

/// The word `faulty`, and the field's name.
impl fmt::Display for BadReply {
    ghost use Rattle.std.specs.Prelude.{Some};

    ghost output = { λ fault. Some (fault_text fault) };

    fn fmt<W: fmt::Write>(&self, f: &mut fmt::Formatter<W>) -> fmt::Result {
        let field = match self {
            BadReply::Tag => "tag",
            BadReply::Outcome => "outcome",
            BadReply::Account => "account",
            BadReply::Teller => "teller",
            BadReply::Branch => "branch",
            BadReply::Number => "number",
            BadReply::Delta => "delta",
            BadReply::Balance => "balance",
            BadReply::Name => "name",
            BadReply::Filler => "filler",
        };
        write!(f, "faulty {field}")
    }
}

impl std::error::Error for BadReply {}

impl From<Bad> for BadReply {
    ghost use Rattle.message_records.specs.Reading.{in_reply};

    ghost from_gives = { λ fault result. result ≡ in_reply fault };

    fn from(fault: Bad) -> Self {
        match fault {
            Bad::Tag => BadReply::Tag,
            Bad::Account => BadReply::Account,
            Bad::Teller => BadReply::Teller,
            Bad::Branch => BadReply::Branch,
            Bad::Number => BadReply::Number,
            Bad::Delta => BadReply::Delta,
            // A reply has filler in the place of a reference.
            Bad::Reference | Bad::Filler => BadReply::Filler,
        }
    }
}

/// The word `faulty`, and the field's name.
impl fmt::Display for Bad {
    ghost use Rattle.std.specs.Prelude.{Some};

    ghost output = { λ fault. Some (request_fault_text fault) };

    fn fmt<W: fmt::Write>(&self, f: &mut fmt::Formatter<W>) -> fmt::Result {
        match self {
            Bad::Reference => write!(f, "faulty reference"),
            fault => {
                let in_reply = BadReply::from(*fault);
                write!(f, "{in_reply}")
            }
        }
    }
}

impl std::error::Error for Bad {}
