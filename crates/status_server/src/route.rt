//! The answer to each request.

ghost use Rattle.std.specs.Prelude.{◌≡◌};
ghost use Rattle.status_server.specs.Route.{page_at, is_reading, route_of};

use crate::page::Page;

/// The answer to a request.
#[derive(Clone, Copy)]
pub(crate) enum Route {
    /// A page.
    Page(Page),
    /// There is no page at this path.
    NotFound,
    /// The page exists, and can only be read.
    NotAllowed,
    /// The request is for another host.
    OtherHost,
}

/// The answer to a request of a method for a path, at a host that is this server's own or another.
pub(crate) fn route_of(is_own: bool, method: &str, path: &str) -> Route
    ensures { result ≡ route_of is_own method.now path.now }
{
    if !is_own {
        return Route::OtherHost;
    }
    match page_at(path) {
        Some(page) => {
            if is_reading(method) {
                Route::Page(page)
            } else {
                Route::NotAllowed
            }
        }
        None => Route::NotFound,
    }
}

/// The page at a path, if any.
fn page_at(path: &str) -> Option<Page>
    ensures { result ≡ page_at path.now }
{
    if path == "/" {
        Some(Page::Html)
    } else if path == "/status.json" {
        Some(Page::Json)
    } else if path == "/metrics" {
        Some(Page::Metrics)
    } else if path == "/healthz" {
        Some(Page::Health)
    } else {
        None
    }
}

/// Whether a method reads and changes nothing.
fn is_reading(method: &str) -> bool
    ensures { result ≡ is_reading method.now }
{
    method == "GET" || method == "HEAD"
}
