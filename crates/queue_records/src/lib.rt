//! What is recorded at queues, and whether the records agree with the queues: [`DoorBook`] and [`OutletBook`] record each
//! offer and take that they make, [`Door`] and [`Supply`] are what a receiver and a sender make them through,
//! [`ListDoor`] and [`ListSupply`] are such over queues of their own, and [`lists_to_order`] and the functions beside it
//! compare what all of them recorded with the queues' histories and counts. Nothing here waits for a lock.
//!
//! `specs/Offers.antt` and `specs/Takes.antt` say what is recorded, `specs/Records.antt` when records agree.
//!
//! ```
//! let mut book = DoorBook::new(alloc, 2, 0)?; // of receiver 0, for two destinations
//! book.offer_under(&mut queue, 5, DestId(1), &point)?; // reader 5 offers to destination 1
//! let record = book.into_record(1, 0); // has that offer, of the set named 1
//! ```
#![tactic(auto)]

mod door;
mod door_book;
mod door_record;
mod entry;
mod found_step;
mod left_out;
mod limits;
mod list_door;
mod list_supply;
mod made;
mod matching;
mod order_lists;
mod outlet_book;
mod outlet_record;
mod record;
mod strangers;
mod sums;
mod supply;
mod taken_batch;

pub use door::Door;
pub use door_book::DoorBook;
pub use door_record::DoorRecord;
pub use left_out::first_left_out;
pub use limits::{MOST_DESTS, MOST_ENTRIES, MOST_SENDERS, READERS_EACH};
pub use list_door::ListDoor;
pub use list_supply::ListSupply;
pub use made::Made;
pub use matching::Difference;
pub use order_lists::{OrderLists, lists_to_order};
pub use outlet_book::OutletBook;
pub use outlet_record::OutletRecord;
pub use relay_base::{MOST_RECEIVERS, NoMemory};
pub use strangers::are_of_set;
pub use sums::first_without_sums;
pub use supply::Supply;
pub use taken_batch::TakenBatch;
