//! How much memory there is for a relay that starts here.

use config_notes::{group_memory, machine_memory, own_group};
use relay_base::utf8_text;
use std::alloc::Global;
use std::fs;

/// The memory of the machine in bytes, or the limit of the group in which this process is (MemoryMax of a service) if
/// that is less; `None` where the system says neither.
pub fn memory_there(rt: &HostRuntime, alloc: Global) -> Option<usize> {
    let machine = memory_of_machine(rt);
    let group = memory_of_group(rt, alloc);
    match (machine, group) {
        (Some(machine), Some(group)) => Some(machine.min(group)),
        (Some(memory), None) | (None, Some(memory)) => Some(memory),
        (None, None) => None,
    }
}

fn memory_of_machine(rt: &HostRuntime) -> Option<usize> {
    let bytes = fs::read(rt, "/proc/meminfo").ok()?;
    machine_memory(utf8_text(bytes.as_slice())?)
}

fn memory_of_group(rt: &HostRuntime, alloc: Global) -> Option<usize> {
    let path = path_of_group(rt, alloc)?;
    let limit = fs::read(rt, path.as_str()).ok()?;
    group_memory(utf8_text(limit.as_slice())?)
}

/// The file with the limit of the group.
fn path_of_group(rt: &HostRuntime, alloc: Global) -> Option<String> {
    let bytes = fs::read(rt, "/proc/self/cgroup").ok()?;
    let group = own_group(utf8_text(bytes.as_slice())?)?;
    format!(in alloc; "/sys/fs/cgroup{group}/memory.max").ok()
}
