#![tactic(auto)]
// The second log program: the log of the schedule on standard input, with the bound on its steps in each E line.
use logs::Kind;

fn main(rt: HostRuntime) {
    programs::run::<{ logs::BOUNDS_ROOM }>(&rt, Kind::Bounds);
}
