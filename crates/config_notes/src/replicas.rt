//! Notes of the ring: how many copies there are, and on which hosts.

use conf_text::{Dest, Settings};
use hash_ring::{Ring, position};
use note_text::Notes;
use relay_base::DestId;
use std::alloc::Global;

/// How many names are tried.
const SAMPLES: usize = 10_000;

/// Notes of a replication factor above the number of stores, or, if replicas are diverse, of hosts; and, if they are
/// not, of names that have two copies on one host.
pub(crate) fn add_ring_notes(alloc: Global, notes: &mut Notes, settings: &Settings) {
    let dests = settings.destinations();
    let factor = settings.replication_factor();
    if factor > dests.len() {
        notes.add(format_args!(
            "REPLICATION_FACTOR is {factor}, and there are {} destinations: each name goes to all of them, once",
            dests.len()
        ));
    }
    if settings.diverse_replicas() {
        let hosts = host_count(dests);
        if factor > hosts && hosts < dests.len() {
            notes.add(format_args!(
                "REPLICATION_FACTOR is {factor}, and the destinations are on {hosts} hosts: with DIVERSE_REPLICAS each name goes to one on each"
            ));
        }
        return;
    }
    if let Some(ring) = notes.answer(Ring::from_nodes(alloc, dests)) {
        add_host_note(alloc, notes, &ring, dests, factor);
        drop(ring);
    }
}

/// A note of sample names that have two copies on one host.
fn add_host_note(alloc: Global, notes: &mut Notes, ring: &Ring, dests: &[Dest], factor: usize) {
    let mut count: usize = 0;
    if factor > 1 {
        for number in 0..SAMPLES {
            let is_shared = shares_host(alloc, notes, ring, dests, factor, number);
            count = count.saturating_add(usize::from(is_shared));
        }
    }
    if count > 0 {
        add_shared_note(notes, count, host_count(dests), factor);
    }
}

/// The note that so many sample names have two copies on one host: diverse replicas keep all copies if there are as many
/// hosts, and fewer otherwise.
fn add_shared_note(notes: &mut Notes, count: usize, hosts: usize, factor: usize) {
    if hosts < factor {
        notes.add(format_args!(
            "{count} of {SAMPLES} sample names have two copies on one host, since REPLICATION_FACTOR is {factor} and the number of hosts is {hosts}; DIVERSE_REPLICAS = true, carbon's default, leaves one copy on each host"
        ));
    } else {
        notes.add(format_args!(
            "{count} of {SAMPLES} sample names have two copies on one host; DIVERSE_REPLICAS = true keeps the copies of a name on different hosts; on a ring in use it moves those that share one"
        ));
    }
}

/// Whether the sample name of a number has two copies on one host.
fn shares_host(
    alloc: Global,
    notes: &mut Notes,
    ring: &Ring,
    dests: &[Dest],
    factor: usize,
    number: usize,
) -> bool {
    let Some(name) = notes.answer(format!(in alloc; "servers.web{number}.cpu.load")) else {
        return false;
    };
    let place = position(name.as_bytes());
    let Some(nodes) = notes.answer(ring.nodes(alloc, place, factor, false)) else {
        return false;
    };
    has_host_twice(dests, &nodes)
}

/// The number of hosts of the destinations.
fn host_count(dests: &[Dest]) -> usize {
    let mut count: usize = 0;
    for (place, dest) in dests.iter().enumerate() {
        let is_new = !has_host(&dests[..place], dest.host.as_str());
        count = count.saturating_add(usize::from(is_new));
    }
    count
}

fn has_host(dests: &[Dest], host: &str) -> bool {
    for dest in dests {
        if dest.host.as_str() == host {
            return true;
        }
    }
    false
}

fn has_host_twice(dests: &[Dest], nodes: &[DestId]) -> bool {
    for copy in 0..nodes.len() {
        let node = nodes[copy];
        for other in nodes.iter().take(copy) {
            if is_one_host(dests, *other, node) {
                return true;
            }
        }
    }
    false
}

fn is_one_host(dests: &[Dest], one: DestId, other: DestId) -> bool {
    match (dests.get(one.0), dests.get(other.0)) {
        (Some(one), Some(other)) => one.host == other.host,
        _ => false,
    }
}
