//! The routes, which are made once.
ghost use Rattle.std.specs.Prelude.{◌≡◌, [], Ok, true};
ghost use Rattle.matchit.specs.Route.{parse_route};
ghost use Rattle.matchit.specs.Router.{InsertsRead};
ghost use Rattle.counter_http.specs.believed.Paths.{route_of, path_of};
ghost use Rattle.counter_http.specs.Paths.{path_end};
ghost use Rattle.counter_http.specs.Rows.{all_routes};

use matchit::Router;
use std::alloc::Global;

/// What a path leads to.
#[derive(Clone, Copy)]
pub(crate) enum Route {
    /// `/post`: a record is submitted.
    Posting,
    /// `/account/` and a number: the balance of the account is read.
    Account,
    /// `/teller/` and a number: the balance of the teller is read.
    Teller,
    /// `/branches`: the open branches are read.
    Branches,
    /// `/health`: whether the counter answers.
    Health,
    /// `/log/` and a number: the entries of the log after so many are read.
    Log,
    /// `/plan`: the open branches are read as a plan.
    Plan,
    /// `/metrics`: what the counter says of itself is read.
    Metrics,
}

/// The routes.
pub(crate) struct Routes {
    router: Router<Route>,
    ghost rows: { router ≡ all_routes },
}

// It is written out, so that a caller does not prove again how each part is dropped.
impl Drop for Routes {
    fn drop(self) {
        let Routes { router: _ } = self;
    }
}

// Where the path of a target ends.
fn end_of_path(target: &[u8]) -> usize
    ensures { result ≡ path_end target.now }
{
    target
        .iter()
        .position(|byte| *byte == b'?')
        .unwrap_or(target.len())
}

/// The path of a target: what is before its first `?`.
pub(crate) fn path_of(target: &[u8]) -> &[u8]
    ensures { result.now ≡ path_of target.now }
{
    &target[..end_of_path(target)]
}

// Puts one more route into a router, where those before it went in, and answers whether it went in too.
fn insert(router: &mut Router<Route>, going: bool, path: &str, route: Route) -> bool
    ensures { result ≡ true
        → (going ≡ true) × InsertsRead (parse_route path.now) route router.old router.new (Ok tt) }
{
    if !going {
        return false;
    }
    match router.insert(path, route) {
        Ok(()) => true,
        Err(_) => false,
    }
}

// Puts every route into a router that has none, and answers whether all went in.
fn insert_all(router: &mut Router<Route>) -> bool
    requires { router.old ≡ [] }
    ensures { result ≡ true → router.new ≡ all_routes }
{
    let going = insert(router, true, "/post", Route::Posting);
    let going = insert(router, going, "/account/{id}", Route::Account);
    let going = insert(router, going, "/branches", Route::Branches);
    let going = insert(router, going, "/health", Route::Health);
    let going = insert(router, going, "/log/{after}", Route::Log);
    let going = insert(router, going, "/plan", Route::Plan);
    let going = insert(router, going, "/teller/{id}", Route::Teller);
    insert(router, going, "/metrics", Route::Metrics)
}

impl Routes {
    /// Makes the routes, where there is memory for them.
    pub(crate) fn new(alloc: Global) -> Option<Self> {
        let mut router = Router::new(alloc);
        if insert_all(&mut router) {
            Some(Routes { router })
        } else {
            None
        }
    }

    /// The route of a path.
    pub(crate) fn find(&self, path: &[u8]) -> Option<Route>
        ensures { result ≡ route_of path.now }
    {
        let Ok(text) = str::from_utf8(path) else {
            return None;
        };
        match self.router.at(text) {
            Ok(found) => Some(*found.value),
            Err(_) => None,
        }
    }
}
