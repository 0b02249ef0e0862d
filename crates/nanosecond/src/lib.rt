// A difference in nanoseconds, as a float for programs that fit curves.
#![tactic(auto)]

ghost use Rattle.nanosecond.specs.Nanosecond.{Nanoseconds};

// 250 ÷ 65,536 ns for each quantum, with no rounding.
pub fn nanoseconds(quanta: i32) -> f64
    ensures { Nanoseconds quanta result }
{
    f64::from(quanta) * 250.0 / 65536.0
}
