//! A read-only HTTP server of a relay's status: `GET /`, `/status.json`, `/metrics` and `/healthz`, and nothing else.
//!
//! The kit's `http_server` reads the requests and writes the answers, as steps over bytes. [`StatusListener`] moves the
//! bytes of up to 64 connections side by side, each of which has a second for its request and a second to take the
//! answer, which [`StatusTexts`] writes. At a loopback interface it answers only requests for that interface.
#![tactic(auto)]

mod own_host;
mod page;
mod route;
mod service;
mod status_connection;
mod status_listener;

pub use page::{Page, StatusTexts};
pub use status_listener::StatusListener;
