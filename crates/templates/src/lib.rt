// A template: up to 64 tasks, up to 16 processors, a frame, and the slots that fill it.
#![tactic(auto)]

mod calls;
mod laws;
mod questions;
mod refusals;
mod store;
mod template;
mod views;

pub use laws::adopts_exactly_the_sound;
pub use refusals::TemplateRefusal;
pub use template::Template;
