// The calls under C names, for engines: each says what the call that it wraps says. include/fregnaul.h declares them.
#![tactic(auto)]

pub mod alone;
pub mod batch_of;
pub mod full;
pub mod normalized;
pub mod rebuilt;
