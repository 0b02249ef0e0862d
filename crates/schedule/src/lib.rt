// The schedule of one kind: starts, settling, one tick.
#![tactic(auto)]

ghost use Rattle.std.specs.Prelude.{◌≡◌, ◌<◌, ◌≤◌, ◌+◌};
ghost use Rattle.device.specs.Event.{no_schedule, is_awaited, in_event, is_last, starts_left, begins, begins_group, fails, start_single, start_event, left_after, wait_after, started_after, settled_after, good_after, tick_schedule, settle, halt_schedule, counts_sound, wait_sound, balance_sound, schedule_sound};

use device::Schedule;
use unit::Ticks;

pub fn no_schedule() -> Schedule
    ensures { result ≡ no_schedule }
{
    Schedule {
        left: Ticks(0),
        wait: Ticks(0),
        period: Ticks(0),
        planned: 0,
        started: 0,
        settled: 0,
        continuous: false,
        good: 0,
    }
}

// The ticks after its start in which a measurement fails, and the shortest period of an event.
const UNTIL_FAILURE: Ticks = Ticks(8192);

const SHORTEST_PERIOD: Ticks = Ticks(16384);

fn counts_sound(k: Schedule) -> bool
    ensures { result ≡ counts_sound k }
{
    k.planned <= 32
        && k.started <= k.planned
        && k.settled <= k.started
        && k.good <= u16::from(k.settled)
}

fn wait_sound(k: Schedule) -> bool
    ensures { result ≡ wait_sound k }
{
    if UNTIL_FAILURE.0 < k.left.0 {
        return false;
    }
    if !starts_left(k) {
        return true;
    }
    let start_waits = if 0 < k.left.0 {
        k.left.0 + UNTIL_FAILURE.0 <= k.wait.0
    } else {
        0 < k.wait.0
    };
    SHORTEST_PERIOD.0 <= k.period.0 && k.wait.0 <= k.period.0 && start_waits
}

fn balance_sound(k: Schedule) -> bool
    ensures { result ≡ balance_sound k }
{
    if !in_event(k) {
        true
    } else if 0 < k.left.0 {
        u16::from(k.settled) + 1 == u16::from(k.started)
    } else {
        0 < k.started && k.settled == k.started
    }
}

pub fn schedule_sound(k: Schedule) -> bool
    ensures { result ≡ schedule_sound k }
{
    counts_sound(k) && wait_sound(k) && balance_sound(k)
}

pub fn is_awaited(k: Schedule) -> bool
    ensures { result ≡ is_awaited k }
{
    0 < k.left.0
}

pub fn in_event(k: Schedule) -> bool
    ensures { result ≡ in_event k }
{
    k.continuous || k.settled < k.planned
}

// Whether settling one more settles the last of the event, or of the current group.
pub fn is_last(k: Schedule) -> bool
    ensures { result ≡ is_last k }
{
    k.settled < k.planned && k.settled + 1 == k.planned
}

// Whether a start is to come.
fn starts_left(k: Schedule) -> bool
    ensures { result ≡ starts_left k }
{
    k.continuous || k.started < k.planned
}

// Whether the next tick starts a measurement.
pub fn begins(k: Schedule) -> bool
    ensures { result ≡ begins k }
{
    starts_left(k) && k.wait.0 <= 1
}

// Whether the next tick starts the first measurement of a group.
pub fn begins_group(k: Schedule) -> bool
    ensures { result ≡ begins_group k }
{
    begins(k) && k.planned <= k.started
}

// Whether the awaited measurement fails in the next tick.
pub fn fails(k: Schedule) -> bool
    ensures { result ≡ fails k }
{
    k.left.0 == 1
}

// A single measurement starts.
pub fn start_single(k: Schedule) -> Schedule
    ensures { result ≡ start_single k }
{
    Schedule {
        left: UNTIL_FAILURE,
        ..k
    }
}

// An event is accepted, and its first measurement starts.
pub fn start_event(period: Ticks, planned: u8, continuous: bool) -> Schedule
    ensures { result ≡ start_event period planned continuous }
{
    Schedule {
        left: UNTIL_FAILURE,
        wait: period,
        period,
        planned,
        started: 1,
        settled: 0,
        continuous,
        good: 0,
    }
}

fn left_after(k: Schedule) -> Ticks
    ensures { result.0 ≡ left_after k }
{
    if begins(k) {
        UNTIL_FAILURE
    } else {
        Ticks(k.left.0.saturating_sub(1))
    }
}

fn wait_after(k: Schedule) -> Ticks
    ensures { result.0 ≡ wait_after k }
{
    if k.wait.0 <= 1 {
        k.period
    } else {
        Ticks(k.wait.0 - 1)
    }
}

fn started_after(k: Schedule) -> u8
    ensures { result ≡ started_after k }
{
    if !begins(k) {
        k.started
    } else if k.started < k.planned {
        k.started + 1
    } else {
        1
    }
}

fn settled_after(k: Schedule) -> u8
    ensures { result ≡ settled_after k }
{
    if begins_group(k) {
        0
    } else if fails(k) && k.settled < k.planned {
        k.settled + 1
    } else {
        k.settled
    }
}

fn good_after(k: Schedule) -> u16
    ensures { result ≡ good_after k }
{
    if begins_group(k) { 0 } else { k.good }
}

pub fn tick_schedule(k: Schedule) -> Schedule
    ensures { result ≡ tick_schedule k }
{
    Schedule {
        left: left_after(k),
        wait: wait_after(k),
        started: started_after(k),
        settled: settled_after(k),
        good: good_after(k),
        ..k
    }
}

// The awaited measurement is delivered.
pub fn settle(k: Schedule, good: bool) -> Schedule
    requires { k.good ≤ 32 }
    ensures { result ≡ settle k good }
{
    let rest = Schedule {
        left: Ticks(0),
        ..k
    };
    if k.settled < k.planned {
        Schedule {
            settled: k.settled + 1,
            good: if good { k.good + 1 } else { k.good },
            ..rest
        }
    } else {
        rest
    }
}

pub fn halt_schedule(k: Schedule) -> Schedule
    ensures { result ≡ halt_schedule k }
{
    Schedule {
        left: Ticks(0),
        planned: k.settled,
        started: k.settled,
        continuous: false,
        ..k
    }
}
