//! The laws of the spellings.
ghost use Rattle.message_records.specs.Laws.{RequestIsReadAgain, ReplyIsReadAgain, NoRequestBeginsAnother};
ghost use Rattle.message_records.specs.Laws.{PlainIsRequest, NoReplyBeginsAnother};

/// Each request and each reply has one spelling, and no spelling begins another. What is read as a request
/// without a reference is read as a request. It does nothing: the law is what it ensures.
pub fn one_spelling()
    ensures requests_are_read_again { RequestIsReadAgain }
    ensures replies_are_read_again { ReplyIsReadAgain }
    ensures plain_is_request { PlainIsRequest }
    ensures no_request_begins_another { NoRequestBeginsAnother }
    ensures no_reply_begins_another { NoReplyBeginsAnother }
{}
