//! How many lists a number waits for: those that have it behind their first place.
ghost use Rattle.std.specs.Prelude.{◌≡◌, ℕ, ◌+◌, ◌-◌, ◌^◌, ◌<◌, ◌==◌, if◌then◌else◌, OnOk};
ghost use Rattle.common_orders.specs.CommonOrder.{times};
ghost use Rattle.common_orders.specs.OrderSearch.{waits_at};

use relay_base::NoMemory;
use std::collections::HashMap;

/// How many lists have the number behind their first place.
pub(crate) fn count_of(waits: &HashMap<u64, u64>, number: u64) -> u64
    ensures { result ≡ waits_at waits.now number }
{
    waits.get(&number).copied().unwrap_or(0)
}

/// One list more has the number behind its first place.
fn raise(waits: &mut HashMap<u64, u64>, number: u64) -> Result<(), NoMemory>
    requires { waits_at waits.old number < 2 ^ 64 - 1 }
    ensures { OnOk result ((x : ℕ) → waits_at waits.new x
        ≡ waits_at waits.old x + (if number == x then 1 else 0)) }
{
    let count = count_of(waits, number);
    waits.insert(number, count + 1).map_err(|_| NoMemory)?;
    Ok(())
}

/// One list more has each of these numbers behind its first place.
pub(crate) fn raise_all(waits: &mut HashMap<u64, u64>, numbers: &[u64]) -> Result<(), NoMemory>
    requires { (x : ℕ) → waits_at waits.old x + times x numbers.now < 2 ^ 64 - 1 }
    ensures { OnOk result ((x : ℕ) → waits_at waits.new x
        ≡ waits_at waits.old x + times x numbers.now) }
{
    for place in 0..numbers.len() {
        raise(waits, numbers[place])?;
    }
    Ok(())
}

/// One list less has the number behind its first place; says how many still have.
pub(crate) fn lower(waits: &mut HashMap<u64, u64>, number: u64) -> u64
    requires { 0 < waits_at waits.old number }
    ensures waits { (x : ℕ) → waits_at waits.new x + (if number == x then 1 else 0)
        ≡ waits_at waits.old x }
    ensures count { result ≡ waits_at waits.new number }
{
    match waits.get_mut(&number) {
        Some(count) => {
            *count -= 1;
            *count
        }
        None => 0,
    }
}
