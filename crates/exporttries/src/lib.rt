// The search for every schedule, for a caller in C: the benchmark.
#![tactic(auto)]

ghost use Rattle.std.specs.Prelude.{◌≡◌};
ghost use Rattle.tries.specs.Tries.{tries_of, number_of};
ghost use Rattle.exporttries.specs.Reply.{packed, tried_out, number_out};

// A value and a code as one number.
// kept: exports has it too: no crate stands on a static library, and no crate below both speaks of numbers for C (packed).
fn pack(value: u16, code: u16) -> u32
    ensures { result ≡ packed value code }
{
    u32::from(value) + 65536 * u32::from(code)
}

// kept: each call has a name of its own, as C knows it; so in exports.
#[unsafe(no_mangle)]
pub extern "C" fn exports_try_schedules(
    levels: u16,
    queues: u16,
    nodes: u16,
    ops: &[u16],
    bound: u32,
    room: &mut [u8],
    told: &mut [u64; 2],
) -> u32
    ensures { tried_out (tries_of levels queues nodes ops.now bound room.old) told.old ≡ (result, (room.new, told.new)) }
{
    match tries::try_schedules(levels, queues, nodes, ops, bound, room) {
        Ok(tried) => {
            // kept: as, since std has no From of a usize for u64.
            *told = [u64::from(tried.count), tried.bytes as u64];
            pack(u16::from(tried.more), 0)
        }
        Err(r) => pack(0, u16::from(r)),
    }
}

#[unsafe(no_mangle)]
pub extern "C" fn exports_count_schedules(
    levels: u16,
    queues: u16,
    nodes: u16,
    ops: &[u16],
    told: &mut [u64; 1],
) -> u32
    ensures { number_out (number_of levels queues nodes ops.now) told.old ≡ (result, told.new) }
{
    match tries::count_schedules(levels, queues, nodes, ops) {
        Ok(n) => {
            *told = [n];
            pack(0, 0)
        }
        Err(r) => pack(0, u16::from(r)),
    }
}
