//! The jobs of receivers' threads, made of seats and ports.

ghost use Rattle.std.specs.Prelude.{◌≡◌, ◌≤◌, ◌<◌, true, length, IfErr};
ghost use Rattle.relay_ports.specs.StartFault.{is_start_fault};

use crate::receiver_job::ReceiverJob;
use crate::relay_jobs::JobMaker;
use crate::runtime::RelayRuntime;
use locked_queues::{DoorRecord, DoorSeat, LockedDoor, MOST_RECEIVERS, Set};
use relay_base::{NoMemory, add};
use relay_files::RelayFault;
use relay_ports::{Inlet, PortReceiver, Share};
use run_threads::Receiving;

/// A receiver for each inlet, each with its door. A seat that is left over is closed unused.
pub(crate) fn receivers_of<'x, B: Set, R: RelayRuntime>(
    maker: &JobMaker<'x, B, R>,
    doors: Vec<DoorSeat<B>>,
    inlets: Vec<Inlet>,
) -> Result<Receiving<ReceiverJob<'x, B, R>>, RelayFault>
    ensures { IfErr result (λ fault. is_start_fault fault ≡ true) }
{
    let mut receiving = Receiving::none(maker.alloc);
    match add_seats(maker, doors, inlets, &mut receiving) {
        Ok(()) => Ok(receiving),
        Err(NoMemory) => {
            drop(receiving);
            Err(RelayFault::NoMemory)
        }
    }
}

/// Adds the receivers with these inlets, and the records of seats that are left over.
fn add_seats<'x, B: Set, R: RelayRuntime>(
    maker: &JobMaker<'x, B, R>,
    doors: Vec<DoorSeat<B>>,
    inlets: Vec<Inlet>,
    receiving: &mut Receiving<ReceiverJob<'x, B, R>>,
) -> Result<(), NoMemory> {
    let mut inlets = inlets.into_iter();
    for seat in doors {
        add_seat(maker, seat, inlets.next(), receiving)?;
    }
    Ok(())
}

/// Adds the receiver with an inlet, if there is one, and the door of a seat; otherwise closes the seat unused.
fn add_seat<'x, B: Set, R: RelayRuntime>(
    maker: &JobMaker<'x, B, R>,
    seat: DoorSeat<B>,
    inlet: Option<Inlet>,
    receiving: &mut Receiving<ReceiverJob<'x, B, R>>,
) -> Result<(), NoMemory> {
    let receiver = receiving.jobs.len();
    match inlet {
        Some(inlet) if receiver < MOST_RECEIVERS => {
            let job = receiver_job(maker, inlet, receiver, seat);
            add(&mut receiving.jobs, job)
        }
        unused => {
            drop(unused);
            add_unused(maker, seat, &mut receiving.unused)
        }
    }
}

/// Closes a seat unused, and adds its record.
fn add_unused<'x, B: Set, R: RelayRuntime>(
    maker: &JobMaker<'x, B, R>,
    seat: DoorSeat<B>,
    unused: &mut Vec<DoorRecord>,
) -> Result<(), NoMemory> {
    let door = LockedDoor::new(maker.rt, &maker.relay.queues, seat, &maker.relay.gate);
    add(unused, door.close())
}

/// The receiver of this number, with its inlet and the door of its seat. It begins with the connections that were handed over to it.
fn receiver_job<'x, B: Set, R: RelayRuntime>(
    maker: &JobMaker<'x, B, R>,
    inlet: Inlet,
    receiver: usize,
    seat: DoorSeat<B>,
) -> ReceiverJob<'x, B, R>
    requires few { receiver < MOST_RECEIVERS }
{
    let relay = maker.relay;
    let door = LockedDoor::new(maker.rt, &relay.queues, seat, &relay.gate);
    let mut inlet = inlet;
    inlet.resume_handed();
    let share = Share {
        held: relay.state.held(),
        own: receiver,
    };
    let port = PortReceiver {
        inlet,
        number: receiver,
        share,
        watch: relay.watches.of(receiver),
        began: relay.began,
    };
    ReceiverJob {
        port,
        configuration: &relay.configuration,
        door,
        is_recorded: relay.shape.is_recorded,
    }
}
