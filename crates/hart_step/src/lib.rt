//! A hart, and one step of it in each view.
#![tactic(auto)]

mod access;
mod arithmetic;
mod effects;
mod event;
mod flow;
mod gates;
mod hart;
mod running;
mod shadow;
mod stepping;
#[cfg(test)]
mod tests;
#[cfg(test)]
mod vectors;

pub use event::Event;
pub use hart::Hart;
pub use running::steps;
pub use shadow::shadow_steps;
pub use stepping::step;
