// Fresh, sound and busy models, and the reply that hands a model back.
#![tactic(auto)]

pub mod reply;
pub mod state;
