// One step of the highest level that runs, and a run of steps with a budget.
#![tactic(auto)]

ghost use Rattle.std.specs.Prelude.{◌≡◌, ◌≤◌, Some};
ghost use Rattle.words.specs.Inner.{Fits};
ghost use Rattle.words.specs.Layout.{measured};
ghost use Rattle.answers.specs.Said.{says, ran_says, step_says, run_says};
ghost use Rattle.steps.specs.Step.{serving, strays, sound, end_of, step_sized, step_of};
ghost use Rattle.steps.specs.Run.{run_from, run_of};
ghost use Rattle.steps.specs.Whole.{whole_from, ran_from};
ghost use Rattle.steps.specs.Held.{step_of_run, set_steps, later};

use answers::{End, Ran, Refusal, Why};
use table::{After, Point};
use words::{Frame, Level, Node, Sizes};

// The highest level below n whose op is not 0.
// kept: op is a number, as in words::Frame.
pub fn find_served(t: &[u16], s: Sizes, n: usize) -> Option<Level>
    requires fits { Fits s t.now }
    requires n_le_levels { n ≤ s.levels }
    ensures { result ≡ serving s t.now n }
{
    for i in (0..n).rev() {
        let l = Level(words::narrow(i));
        if words::op_of(t, s, l) != 0 {
            return Some(l);
        }
    }
    None
}

// Whether an enqueue is at a D point.
// kept: op and point are numbers, as in words::Frame.
#[tactic(auto, unfolding(crate::specs::Step::strays))]
fn is_stray(f: Frame) -> bool
    ensures { result ≡ strays f }
{
    f.op == 1 && Point::D1 <= f.point
}

// Whether the frame's op, point and queue give no refusal 10.
// kept: op and point are numbers, as in words::Frame.
#[tactic(auto, unfolding(crate::specs::Step::sound))]
fn is_sound(s: Sizes, f: Frame) -> bool
    ensures { result ≡ sound s f }
{
    f.op <= 2 && !is_stray(f) && words::between(1, s.queues, usize::from(f.queue.0))
}

// The frame with n steps more than the first in its steps word; 65,535 stays.
#[tactic(auto, using(crate::specs::Counting::later_is))]
fn with_steps(f: Frame, first: u16, n: u16) -> Frame
    ensures { result ≡ set_steps (later first n) f }
{
    Frame {
        steps: first.saturating_add(n),
        ..f
    }
}

// What an operation's last step answers.
// kept: field by field, since a Frame and an End are two types, and an End has a level and another node.
fn end_of(l: Level, f: Frame, n: Node) -> End
    ensures { result ≡ end_of l f n }
{
    End {
        op: f.op,
        level: l,
        queue: f.queue,
        node: n,
        steps: f.steps,
    }
}

// A run of level l, which is served throughout. Its frame is held beside the table, and put back at the end with its steps counted; that
// it gives no refusal 10 by itself is asked once, since a step that goes on keeps that so.
#[tactic(auto, using(crate::proofs::Laws::serving_below))]
pub fn run_level(t: &mut [u16], s: Sizes, l: Level, budget: u16) -> Ran
    requires fits { Fits s t.old }
    requires levels_value { (serving s t.old s.levels ≡ Some l) × (1 ≤ budget) }
    ensures { run_from s budget 0 t.old ≡ (says (ran_says result), t.new) }
{
    let mut f = words::read_frame(t, s, l);
    if !is_sound(s, f) {
        return Ran {
            steps: 0,
            why: Why::Damaged,
        };
    }
    let top = Level(words::narrow(s.levels));
    let first = f.steps;
    for n in 0..budget {
        match table::turn(t, s, l, top, f) {
            Some(After::Go(g)) => f = g,
            Some(After::Done(x)) => {
                words::write_frame(t, s, l, words::no_frame());
                let last = with_steps(f, first, n + 1);
                return Ran {
                    steps: n + 1,
                    why: Why::Ended(end_of(l, last, x)),
                };
            }
            None => {
                words::write_frame(t, s, l, with_steps(f, first, n));
                return Ran {
                    steps: n,
                    why: Why::Damaged,
                };
            }
        }
    }
    words::write_frame(t, s, l, with_steps(f, first, budget));
    let why = Why::Spent;
    Ran { steps: budget, why }
}

// What a run of one step says of its step.
fn step_of_run(r: Ran) -> Result<Option<End>, Refusal>
    ensures { step_says result ≡ step_of_run (says (ran_says r)) }
{
    match r.why {
        Why::Ended(e) => Ok(Some(e)),
        Why::Spent => Ok(None),
        Why::Idle => Err(Refusal::Idle),
        Why::Damaged => Err(Refusal::Damaged),
    }
}

// The step of a table that was measured: a run of one.
// kept: a twin of step_sized, as run_served is of run_sized; where the calls too go through run_levels, a walk takes 11 % longer.
#[tactic(auto, using(words::specs::Laws::measured_fits), unfolding(crate::specs::Step::step_sized, crate::specs::Step::step_served))]
fn step_served(t: &mut [u16], s: Sizes) -> Result<Option<End>, Refusal>
    requires { measured t.old ≡ Some s }
    ensures { step_sized s t.old ≡ (step_says result, t.new) }
{
    let l = find_served(t, s, s.levels).ok_or(Refusal::Idle)?;
    step_of_run(run_level(t, s, l, 1))
}

// One step of the highest level that runs.
#[tactic(auto, unfolding(crate::specs::Step::step_of, crate::specs::Step::step_measured))]
pub fn step(t: &mut [u16]) -> Result<Option<End>, Refusal>
    ensures { step_of t.old ≡ (step_says result, t.new) }
{
    let s = words::measure(t).ok_or(Refusal::Table)?;
    step_served(t, s)
}

#[tactic(auto, using(words::specs::Laws::measured_fits))]
fn run_served(t: &mut [u16], s: Sizes, budget: u16) -> Ran
    requires { measured t.old ≡ Some s }
    ensures { run_from s budget 0 t.old ≡ (says (ran_says result), t.new) }
{
    if budget == 0 {
        return Ran {
            steps: 0,
            why: Why::Spent,
        };
    }
    match find_served(t, s, s.levels) {
        Some(l) => run_level(t, s, l, budget),
        None => Ran {
            steps: 0,
            why: Why::Idle,
        },
    }
}

// A run of at most budget steps.
#[tactic(auto, unfolding(crate::specs::Run::run_of, crate::specs::Run::run_measured))]
pub fn run(t: &mut [u16], budget: u16) -> Result<Ran, Refusal>
    ensures { run_of budget t.old ≡ (run_says result, t.new) }
{
    let s = words::measure(t).ok_or(Refusal::Table)?;
    Ok(run_served(t, s, budget))
}

// A run of a table that was measured: to the first end, or on until nothing runs. Where an operation ended, nothing runs from its level
// on. The search makes all its steps here and the calls above none, so that in each library one place calls run_level and the step table
// stands in the machine code there, inside the loop.
#[tactic(auto, using(words::specs::Laws::measured_fits))]
fn run_levels(t: &mut [u16], s: Sizes, budget: u16, whole: bool) -> Ran
    requires { measured t.old ≡ Some s }
    ensures { ran_from whole s budget 0 t.old ≡ (says (ran_says result), t.new) }
{
    let mut left = budget;
    let mut top = s.levels;
    while 0 < left {
        let Some(l) = find_served(t, s, top) else {
            return Ran {
                steps: budget - left,
                why: Why::Idle,
            };
        };
        let ran = run_level(t, s, l, left);
        left -= ran.steps;
        let so_far = Ran {
            steps: budget - left,
            ..ran
        };
        let Why::Ended(e) = ran.why else {
            return so_far;
        };
        if !whole {
            return so_far;
        }
        top = e.level.index();
    }
    Ran {
        steps: budget,
        why: Why::Spent,
    }
}

// A run of a table that was measured, for the search.
pub fn run_sized(t: &mut [u16], s: Sizes, budget: u16) -> Ran
    requires { measured t.old ≡ Some s }
    ensures { run_from s budget 0 t.old ≡ (says (ran_says result), t.new) }
{
    run_levels(t, s, budget, false)
}

// All steps of a table that was measured until nothing runs.
// kept: two names with a promise each (run_from, whole_from); a const for whole would make two places that call run_level.
pub fn run_out(t: &mut [u16], s: Sizes, budget: u16) -> Ran
    requires { measured t.old ≡ Some s }
    ensures { whole_from s budget 0 t.old ≡ (says (ran_says result), t.new) }
{
    run_levels(t, s, budget, true)
}

// A step of a table that was measured, for the search.
pub fn step_sized(t: &mut [u16], s: Sizes) -> Result<Option<End>, Refusal>
    requires { measured t.old ≡ Some s }
    ensures { step_sized s t.old ≡ (step_says result, t.new) }
{
    step_of_run(run_sized(t, s, 1))
}
