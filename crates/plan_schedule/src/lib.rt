//! What is printed of a plan: when each frame is sent, by when its last receiver has it, and where red ends.
#![tactic(auto)]

mod frames;
pub mod law;
mod planned;
mod red;
mod text;

pub use frames::{Schedule, schedules};
pub use red::red_end;
pub use text::{plan_text, print_plan};
