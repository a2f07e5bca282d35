//! The job of the thread that keeps the files of a run that diverts destinations.

ghost use Rattle.std.specs.Prelude.{◌≡◌, true, IfErr};
ghost use Rattle.relay_ports.specs.StartFault.{is_start_fault};

use crate::relay_jobs::JobMaker;
use crate::runtime::RelayRuntime;
use crate::sender_setup::connector_with;
use locked_queues::Set;
use mio_loops::Readiness;
use relay_files::RelayFault;
use run_state::EndState;
use senders::{SenderShare, StoreConnector};
use spool::SpoolBound;
use store_lines::{KeeperJob, KeeperPlaces, Share};

/// The job of the keeper of files, if the run diverts destinations, which waits with this readiness. It notes the events of all
/// destinations.
pub(crate) fn keeper_job<'x, B: Set, R: RelayRuntime>(
    maker: &JobMaker<'x, B, R>,
    readiness: Option<Readiness>,
) -> Result<Option<KeeperJob<'x, R>>, RelayFault>
    ensures { IfErr result (λ fault. is_start_fault fault ≡ true) }
{
    let relay = maker.relay;
    let (Some(readiness), Some(end)) = (readiness, relay.state.end()) else {
        return Ok(None);
    };
    let Some(alarm) = relay.keeper_gate.alarm(0) else {
        drop(readiness);
        return Err(RelayFault::Output);
    };
    let noted = relay.noted();
    let share = SenderShare::all(noted.dests);
    match connector_with(maker, readiness, alarm, share, noted.notes) {
        Ok(connector) => keeper_with(maker, connector, end),
        Err(fault) => Err(fault),
    }
}

/// The job of the keeper with this connector, of a run with this end.
fn keeper_with<'x, B: Set, R: RelayRuntime>(
    maker: &JobMaker<'x, B, R>,
    connector: StoreConnector<'x, R>,
    end: &'x EndState,
) -> Result<Option<KeeperJob<'x, R>>, RelayFault>
    ensures { IfErr result (λ fault. is_start_fault fault ≡ true) }
{
    let relay = maker.relay;
    let dests = relay.shape.dests;
    let places = match KeeperPlaces::new(maker.alloc, dests, relay.file_limit, end.spool_notes()) {
        Ok(places) => places,
        Err(_) => {
            drop(connector);
            return Err(RelayFault::NoMemory);
        }
    };
    Ok(Some(KeeperJob {
        connector,
        places,
        share: Share {
            slots: &relay.slots,
            dests,
            sender: 0,
            senders: 1,
        },
        diversions: &relay.diversions,
        notes: end.spool_notes(),
        gate: &relay.gate,
        bound: SpoolBound::new(end.spool_size(), dests),
        used: end.spool_used(),
        limit: relay.file_limit,
        began: relay.began,
    }))
}
