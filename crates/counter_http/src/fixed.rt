//! The answers that need no bank.
ghost use Rattle.std.specs.Prelude.{◌≡◌, codes};
ghost use Rattle.counter_http.specs.believed.Answers.{bare as bare_answer, not_allowed, plain};
ghost use Rattle.counter_http.specs.Telling.{said};

use crate::telling::Response;
use http::StatusCode;

/// An answer that says no more than its code.
pub(crate) fn bare(body: &'static [u8], status: StatusCode) -> Response<'static>
    ensures { said result ≡ record {
      code = status;
      media = codes "text/plain";
      allow = None;
      body = body.now;
    } }
{
    Response {
        status,
        media: b"text/plain",
        allow: None,
        body,
    }
}

/// The counter answers.
pub(crate) fn healthy() -> Response<'static>
    ensures { said result ≡ plain (codes "ok\n") }
{
    bare(b"ok\n", StatusCode::OK)
}

/// There is nothing at the path.
pub(crate) fn not_found() -> Response<'static>
    ensures { said result ≡ bare_answer 404 }
{
    bare(b"404 Not Found\n", StatusCode::NOT_FOUND)
}

/// What was sent is no message, or no record.
pub(crate) fn bad_request() -> Response<'static>
    ensures { said result ≡ bare_answer 400 }
{
    bare(b"400 Bad Request\n", StatusCode::BAD_REQUEST)
}

/// The bank failed.
pub(crate) fn unavailable() -> Response<'static>
    ensures { said result ≡ bare_answer 503 }
{
    bare(
        b"503 Service Unavailable\n",
        StatusCode::SERVICE_UNAVAILABLE,
    )
}

/// A route takes other methods alone.
pub(crate) fn not_taken(methods: &'static [u8]) -> Response<'static>
    ensures { said result ≡ not_allowed methods.now }
{
    Response {
        status: StatusCode::METHOD_NOT_ALLOWED,
        media: b"text/plain",
        allow: Some(methods),
        body: b"405 Method Not Allowed\n",
    }
}
