//! The rows of a sheet of postings, one after another.
ghost use Rattle.std.specs.Prelude.{◌≡◌, ◌<◌, ◌-◌, ◌^◌, IfOk, OnOk, IsTrue, ◌↔◌};
ghost use Rattle.branch_loader.specs.Records.{Records};
ghost use Rattle.posting_sheets.specs.Beside.{AnswersPosting};
ghost use Rattle.posting_sheets.specs.Sheets.{Sheet, sheet_of_records};
ghost use Rattle.posting_sheets.specs.Walking.{IsAfter, IsBegunSo, IsNextSo, IsTakenSo};

use crate::fault::RepliesFault;
use crate::form::{Form, form_of};
use crate::line::PostingRow;
use crate::row::request_of_row;
use branch_loader::{RecordSource, next_record};
use csv::ByteRecord;
use message_records::{Reply, Request};
use std::alloc::Global;

/// The rows that are left of a sheet.
#[derive(Drop)]
pub(crate) struct Rows<S> {
    pub(crate) source: S,
    fields: ByteRecord,
    form: Form,
}

// Whether a reply is one to a posting: it shows its request, or none.
fn answers(request: &Request, reply: &Reply) -> bool
    ensures { IsTrue result ↔ AnswersPosting request.now reply.now }
{
    match reply.request() {
        Some(shown) => shown == request.unreferenced(),
        None => true,
    }
}

impl<S: RecordSource + Drop> Rows<S> {
    /// The rows after the header of a sheet.
    pub(crate) fn new(alloc: Global, mut source: S) -> Result<Rows<S>, RepliesFault>
        requires { S.is_plain source }
        ensures begun { (all : Records) → S.has_left source all → IsBegunSo S.has_left (sheet_of_records all) result }
        ensures plain { IfOk result (λ rows. S.is_plain rows.source) }
    {
        let mut fields = ByteRecord::new(alloc);
        let Ok(found) = next_record(&mut source, &mut fields) else {
            return Err(RepliesFault::Memory);
        };
        if !found {
            return Err(RepliesFault::Header);
        }
        match form_of(&fields) {
            Some(form) => Ok(Rows {
                source,
                fields,
                form,
            }),
            None => Err(RepliesFault::Header),
        }
    }
}

impl<S: RecordSource> Rows<S> {
    // The request of the row after so many, if there is one.
    fn next(&mut self, before: u64) -> Result<Option<Request>, RepliesFault>
        requires plain { S.is_plain self.old.source }
        requires few { before < 2 ^ 64 - 1 }
        ensures next { (postings : Sheet) → IsAfter S.has_left self.old postings before
            → IsNextSo S.has_left postings before self.new result }
        ensures plain { OnOk result (S.is_plain self.new.source) }
    {
        let Ok(found) = next_record(&mut self.source, &mut self.fields) else {
            return Err(RepliesFault::Memory);
        };
        if !found {
            return Ok(None);
        }
        match request_of_row(self.form, &self.fields) {
            Ok(request) => Ok(Some(request)),
            Err(bad) => Err(RepliesFault::Row(before + 1, bad)),
        }
    }

    /// The row that a reply after so many answers.
    pub(crate) fn take_for(
        &mut self,
        reply: &Reply,
        before: u64,
    ) -> Result<PostingRow, RepliesFault>
        requires plain { S.is_plain self.old.source }
        requires few { before < 2 ^ 64 - 1 }
        ensures taken { (postings : Sheet) → IsAfter S.has_left self.old postings before
            → IsTakenSo S.has_left postings before reply.now self.new result }
        ensures plain { OnOk result (S.is_plain self.new.source) }
    {
        let request = match self.next(before) {
            Ok(Some(request)) => request,
            Ok(None) => return Err(RepliesFault::MoreReplies),
            Err(fault) => return Err(fault),
        };
        if !answers(&request, reply) {
            return Err(RepliesFault::OtherPosting(before + 1));
        }
        Ok(PostingRow {
            number: before + 1,
            reference: request.reference(),
        })
    }
}
