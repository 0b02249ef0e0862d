// Ticks that are run, with their reports put into a buffer.
ghost use Rattle.std.specs.Prelude.{◌≡◌, true, ◌+◌, ◌<◌, ltb, leb};
ghost use Rattle.unit.specs.Choice.{both};
ghost use Rattle.device.specs.Model.{is_sound};
ghost use Rattle.item_ticks_code.specs.OwnRan.{Ran, Turned};

use crate::RanTicks;
use crate::moving::move_on;
use device::Model;
use item_words_code::reports::put_reports;
use unit::Ticks;

// The reports of one tick take no more bytes.
pub const ROOM_OF_REPORTS: usize = 256;

// Runs ticks until none is left, or no room for reports before the place `stop`.
pub fn run_ticks(
    m: Model,
    left: Ticks,
    next: u64,
    buf: &mut [u8],
    at: usize,
    stop: usize,
) -> RanTicks
    requires { (is_sound m ≡ true) × (next + left.0 < 9223372036854775808) }
    ensures { Ran m left.0 next buf.old at stop result buf.new }
{
    let mut r = RanTicks {
        model: m,
        left,
        next,
        end: at,
    };
    // A while: each turn takes as many ticks as nothing happens in, and no index counts them.
    while goes_on(r, stop) {
        r = turn(r, buf);
    }
    r
}

// Whether a tick is left, and room for its reports.
fn goes_on(r: RanTicks, stop: usize) -> bool
    ensures { result ≡ both (ltb 0 r.left.0) (leb (r.end + 256) stop) }
{
    0 < r.left.0 && has_room(r.end, stop)
}

fn has_room(at: usize, stop: usize) -> bool
    ensures { result ≡ leb (at + 256) stop }
{
    ROOM_OF_REPORTS <= stop && at <= stop - ROOM_OF_REPORTS
}

// At least one tick more.
fn turn(r: RanTicks, buf: &mut [u8]) -> RanTicks
    requires { (is_sound r.model ≡ true) × (0 < r.left.0) × (r.next + r.left.0 < 9223372036854775808) }
    ensures { Turned r buf.old result buf.new }
{
    let moved = move_on(r.model, r.left);
    let next = r.next + unit::wide(moved.ran.0);
    let end = put_reports(buf, r.end, moved.flight, moved.temperature, next - 1);
    RanTicks {
        model: moved.model,
        left: Ticks(r.left.0 - moved.ran.0),
        next,
        end,
    }
}
