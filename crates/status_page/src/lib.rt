//! The status of a running relay as texts: a page for people, JSON for programs, and metrics for Prometheus.
//!
//! A [`Snapshot`] holds what is shown; of producers it has counts and addresses, and nothing that one sent. `specs/Json.antt` and
//! `specs/Metrics.antt` define the JSON and the metrics, and [`push_json`] and [`push_metrics`] append exactly these.
//! `specs/MetricTable.antt` and `src/metric_table.rt` have a row for each metric, with what it shows.
//! `specs/Headline.antt` defines what the status says first, the worst that is true, and the words that it begins with.
//! Title and heading of the page begin with these; the rest of [`push_page`]'s text has no clause.
#![tactic(auto)]

mod dest_card;
mod dest_metrics;
mod dest_table;
mod headline;
mod headline_text;
mod json;
mod json_dests;
mod json_producers;
mod json_receivers;
mod loss_words;
mod metric_table;
mod metrics;
mod numbers;
mod page;
mod plain;
mod plot;
mod producer_table;
mod receiver_metrics;
mod receiver_table;
mod snapshot;
mod spool_text;

pub use json::push_json;
pub use metrics::push_metrics;
pub use page::push_page;
pub use snapshot::{
    ConnectionCounts, DestSnapshot, OtherProducers, ProcessCounts, ProducerSnapshot, Rates,
    ReceiverSnapshot, Sample, Snapshot, SpoolSnapshot, WatchedAt,
};
