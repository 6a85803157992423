#![tactic(auto)]
// The bench program: the log of the schedule on standard input.
use logs::Kind;

fn main(rt: HostRuntime) {
    programs::run::<{ logs::ROOM }>(&rt, Kind::Plain);
}
