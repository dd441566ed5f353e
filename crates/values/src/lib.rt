// What a call is generic over: the word, the value and the power.
#![tactic(auto)]

mod kind;
mod power;
mod value;
mod word;

pub use kind::Kind;
pub use power::{Cube, Power, Square};
pub use value::Value;
pub use word::Word;
