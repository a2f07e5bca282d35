//! The answers to requests.

use crate::own_host::is_own_host;
use crate::page::{Page, StatusTexts};
use crate::route::{Route, route_of};
use bytes::{BufMut, Bytes};
use http::{HeaderName, HeaderValue, Request, StatusCode, header};
use http_server::{Response, Service};
use std::alloc::{AllocError, Global};

/// Answers requests with these texts: at a loopback interface, whose text is not empty, only those for it.
#[derive(Drop)]
pub(crate) struct StatusService<'t, T> {
    pub(crate) alloc: Global,
    pub(crate) texts: &'t T,
    pub(crate) interface: &'t str,
}

impl<T: StatusTexts> Service for StatusService<'_, T> {
    // Nothing is claimed of an answer here: the texts have contracts of their own.
    ghost answers = { λ _ _ _ _. Unit {0} };

    fn call(
        &mut self,
        request: &Request<Bytes>,
        response: &mut Response,
    ) -> Result<(), AllocError> {
        response.add_header(header::CONNECTION, HeaderValue::from_static("close"))?;
        response.add_header(header::CACHE_CONTROL, HeaderValue::from_static("no-store"))?;
        let is_own = is_for(self.interface, request);
        match route_of(is_own, request.method().as_str(), request.uri().path()) {
            Route::Page(page) => {
                if matches!(page, Page::Health) && self.texts.is_ending() {
                    response.status = StatusCode::SERVICE_UNAVAILABLE;
                }
                add_kind(response, page)?;
                add_text(self.alloc, response, self.texts, page)
            }
            Route::NotFound => {
                response.status = StatusCode::NOT_FOUND;
                response.body.put_slice(b"not found\n")
            }
            Route::NotAllowed => refuse_method(response),
            Route::OtherHost => {
                response.status = StatusCode::MISDIRECTED_REQUEST;
                response.body.put_slice(
                    b"this server answers for its own address and localhost alone\n",
                )
            }
        }
    }
}

/// Whether a request is for a server at this loopback interface, or it is at none. A request of HTTP/1.0 without a host is:
/// browsers send none.
fn is_for(interface: &str, request: &Request<Bytes>) -> bool {
    if interface.is_empty() {
        return true;
    }
    match request.headers().get(header::HOST) {
        Some(host) => is_own_host(interface, host.as_bytes()),
        None => true,
    }
}

/// Adds the text of a page.
fn add_text<T: StatusTexts>(
    alloc: Global,
    response: &mut Response,
    texts: &T,
    page: Page,
) -> Result<(), AllocError> {
    let mut text = String::new(alloc);
    texts.push_text(page, &mut text)?;
    response.body.put_slice(text.as_str().as_bytes())
}

/// Answers that a page can only be read.
fn refuse_method(response: &mut Response) -> Result<(), AllocError> {
    response.status = StatusCode::METHOD_NOT_ALLOWED;
    response.add_header(
        HeaderName::from_static("allow"),
        HeaderValue::from_static("GET, HEAD"),
    )?;
    response.body.put_slice(b"method not allowed\n")
}

/// Adds the headers that say what kind of text a page is, and that it may load nothing.
fn add_kind(response: &mut Response, page: Page) -> Result<(), AllocError> {
    let kind = match page {
        Page::Html => HeaderValue::from_static("text/html; charset=utf-8"),
        Page::Json => HeaderValue::from_static("application/json"),
        Page::Metrics => HeaderValue::from_static("text/plain; version=0.0.4; charset=utf-8"),
        Page::Health => HeaderValue::from_static("text/plain; charset=utf-8"),
    };
    response.add_header(header::CONTENT_TYPE, kind)?;
    let rules =
        "default-src 'none'; style-src 'unsafe-inline'; img-src data:; frame-ancestors 'none'";
    response.add_header(
        HeaderName::from_static("content-security-policy"),
        HeaderValue::from_static(rules),
    )
}
