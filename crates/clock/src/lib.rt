// The code of the calendar clock: its step by one tick, its register words, and the alarm. `calendar` has the definitions.
#![tactic(auto)]

pub mod alarm;
pub mod date;
pub mod step;
pub mod words;
