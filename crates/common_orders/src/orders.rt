//! Common orders of lists of numbers.
ghost use Rattle.std.specs.Prelude.{◌≡◌, ℕ, List, length, map, IfOk, IsErrOf};
ghost use Rattle.common_orders.specs.CommonOrder.{IsCommonOrder, IsFirstRepeat, HoldEachOnce};

use crate::repeats::first_repeat;
use crate::search::Search;
use std::alloc::Global;
use thiserror::Error;

/// Why lists have no common order.
#[derive(Clone, Copy, Debug, Error)]
pub enum OrderFault {
    /// A list holds a number twice.
    #[error("list {list} holds a number twice")]
    Repeated {
        /// The least such list, counted from 0.
        list: usize,
    },
    /// No list holds a number twice, and there is no common order.
    #[error("the lists have no common order")]
    NoOrder,
    /// A growth was refused.
    #[error("out of memory")]
    NoMemory,
}

/// A list that holds each number of the lists once, and has each of them as a subsequence.
///
/// Refuses a list that holds a number twice (`Repeated`, with the index of the first such list) and
/// lists that have no common order (`NoOrder`). Returns `NoMemory` if memory runs out.
///
/// The time is that of a search through the fronts of all lists for each number that is placed, so
/// it is nearly linear in the numbers if the lists are few and long.
pub fn common_order(alloc: Global, lists: &[Vec<u64>]) -> Result<Vec<u64>, OrderFault>
    ensures order { IfOk result (λ order.
        IsCommonOrder (map (λ list. list.items) lists.now) order.items) }
    ensures repeated { (list : ℕ) → IsErrOf result (OrderFault.Repeated list)
        → IsFirstRepeat (map (λ list. list.items) lists.now) list }
    ensures no_order { IsErrOf result OrderFault.NoOrder
        → HoldEachOnce (length lists.now) (map (λ list. list.items) lists.now)
        × ((order : List ℕ) → ¬ IsCommonOrder (map (λ list. list.items) lists.now) order) }
{
    if let Some(list) = first_repeat(alloc, lists).map_err(|_| OrderFault::NoMemory)? {
        return Err(OrderFault::Repeated { list });
    }
    let mut search = Search::new(alloc, lists).map_err(|_| OrderFault::NoMemory)?;
    let mut order = Vec::new(alloc);
    while let Some(number) = search.ready.pop() {
        let Ok(begins) = search.place(number) else {
            return Err(OrderFault::NoMemory);
        };
        if begins {
            order.push(number).map_err(|_| OrderFault::NoMemory)?;
        }
    }
    if search.is_done() {
        Ok(order)
    } else {
        Err(OrderFault::NoOrder)
    }
}
