// The fields of a model by the width of their numbers, and a model from them.
ghost use Rattle.std.specs.Prelude.{◌≡◌, length};
ghost use Rattle.layout.specs.Layout.{clock_of, double, flight_of, model_of, octuple, quadruple, single, status_of, temperature_of};

use calendar::Clock;
use device::{Flight, Model, Schedule, Status, Temperature};
use unit::{Quanta, Ticks};

// Fields by their places and names: a loop over them would name none.
fn clock_of(b: &[u8], q: [u32; 33]) -> Clock
    requires { length b.now ≡ 233 }
    ensures { result ≡ clock_of b.now q }
{
    let ticks = Ticks(q[7]);
    Clock {
        year: q[0],
        month: q[1],
        date: q[2],
        weekday: q[3],
        hour: q[4],
        minute: q[5],
        second: q[6],
        ticks,
        twelve: b[1] == 1,
    }
}

fn status_of(b: &[u8]) -> Status
    requires { length b.now ≡ 233 }
    ensures { result ≡ status_of b.now }
{
    Status {
        timeout: b[2] == 1,
        alarm: b[3] == 1,
        tof: b[4] == 1,
        te: b[5] == 1,
        ldo: b[6] == 1,
        tofevtmg: b[7] == 1,
        tempevtmg: b[8] == 1,
        flash: b[9] == 1,
        halt: b[10] == 1,
        init: b[11] == 1,
        por: b[12] == 1,
    }
}

fn flight_of(b: &[u8], d: [u16; 18], q: [u32; 33], o: [u64; 5]) -> Flight
    requires { length b.now ≡ 233 }
    ensures { result ≡ flight_of b.now d q o }
{
    let left = Ticks(q[8]);
    let wait = Ticks(q[9]);
    let period = Ticks(q[10]);
    let schedule = Schedule {
        left,
        wait,
        period,
        planned: b[19],
        started: b[20],
        settled: b[21],
        continuous: b[15] == 1,
        good: d[16],
    };
    let ups = [q[14], q[15], q[16], q[17], q[18], q[19], q[20]];
    let downs = [q[21], q[22], q[23], q[24], q[25], q[26], q[27]];
    let sum = Quanta(o[0]);
    Flight {
        schedule,
        up: b[16] == 1,
        down: b[17] == 1,
        sum,
        ups,
        downs,
        difference: q[28],
    }
}

fn temperature_of(b: &[u8], d: [u16; 18], q: [u32; 33], o: [u64; 5]) -> Temperature
    requires { length b.now ≡ 233 }
    ensures { result ≡ temperature_of b.now d q o }
{
    let left = Ticks(q[11]);
    let wait = Ticks(q[12]);
    let period = Ticks(q[13]);
    let schedule = Schedule {
        left,
        wait,
        period,
        planned: b[22],
        started: b[23],
        settled: b[24],
        continuous: b[18] == 1,
        good: d[17],
    };
    let s1 = Quanta(o[1]);
    let s2 = Quanta(o[2]);
    let s3 = Quanta(o[3]);
    let s4 = Quanta(o[4]);
    let sums = [s1, s2, s3, s4];
    let ports = [q[29], q[30], q[31], q[32]];
    Temperature {
        schedule,
        sums,
        ports,
    }
}

pub fn model_of(b: &[u8], d: [u16; 18], q: [u32; 33], o: [u64; 5]) -> Model
    requires { length b.now ≡ 233 }
    ensures { result ≡ model_of b.now d q o }
{
    let setup = [
        d[0], d[1], d[2], d[3], d[4], d[5], d[6], d[7], d[8], d[9], d[10], d[11], d[12], d[13],
        d[14], d[15],
    ];
    let clock = clock_of(b, q);
    let status = status_of(b);
    let flight = flight_of(b, d, q, o);
    let temperature = temperature_of(b, d, q, o);
    Model {
        clock,
        setup,
        status,
        initialised: b[13] == 1,
        regulator: b[14] == 1,
        flight,
        temperature,
    }
}

pub fn single_of(m: Model) -> [u8; 25]
    ensures { result ≡ single m }
{
    let c = m.clock;
    let s = m.status;
    let f = m.flight;
    let t = m.temperature;
    let e = f.schedule;
    let k = t.schedule;
    [
        1,
        c.twelve as u8,
        s.timeout as u8,
        s.alarm as u8,
        s.tof as u8,
        s.te as u8,
        s.ldo as u8,
        s.tofevtmg as u8,
        s.tempevtmg as u8,
        s.flash as u8,
        s.halt as u8,
        s.init as u8,
        s.por as u8,
        m.initialised as u8,
        m.regulator as u8,
        e.continuous as u8,
        f.up as u8,
        f.down as u8,
        k.continuous as u8,
        e.planned,
        e.started,
        e.settled,
        k.planned,
        k.started,
        k.settled,
    ]
}

pub fn double_of(m: Model) -> [u16; 18]
    ensures { result ≡ double m }
{
    let s = m.setup;
    let f = m.flight;
    let t = m.temperature;
    let e = f.schedule;
    let k = t.schedule;
    [
        s[0], s[1], s[2], s[3], s[4], s[5], s[6], s[7], s[8], s[9], s[10], s[11], s[12], s[13],
        s[14], s[15], e.good, k.good,
    ]
}

pub fn quadruple_of(c: Clock, f: Flight, t: Temperature) -> [u32; 33]
    ensures { (result ≡ quadruple c f t) × (length f.ups ≡ 7) × (length f.downs ≡ 7) × (length t.ports ≡ 4) }
{
    let e = f.schedule;
    let k = t.schedule;
    let u = f.ups;
    let d = f.downs;
    let p = t.ports;
    [
        c.year,
        c.month,
        c.date,
        c.weekday,
        c.hour,
        c.minute,
        c.second,
        c.ticks.0,
        e.left.0,
        e.wait.0,
        e.period.0,
        k.left.0,
        k.wait.0,
        k.period.0,
        u[0],
        u[1],
        u[2],
        u[3],
        u[4],
        u[5],
        u[6],
        d[0],
        d[1],
        d[2],
        d[3],
        d[4],
        d[5],
        d[6],
        f.difference,
        p[0],
        p[1],
        p[2],
        p[3],
    ]
}

pub fn octuple_of(f: Flight, t: Temperature) -> [u64; 5]
    ensures { (result ≡ octuple f t) × (length t.sums ≡ 4) }
{
    let s = t.sums;
    let sum = f.sum;
    [sum.0, s[0].0, s[1].0, s[2].0, s[3].0]
}
