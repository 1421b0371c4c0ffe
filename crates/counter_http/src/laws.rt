//! What holds of all answers.
ghost use Rattle.counter_http.specs.Momentless.{AnswersHaveNoMoment};

/// Messages that ask for no entries of the log have the same answers, whenever their records are submitted. It does
/// nothing: the law is what it ensures.
pub fn answers_have_no_moment()
    ensures { AnswersHaveNoMoment }
{}
