// The two houses run side by side and at the edges of their limits, and two houses of other kinds.
#![tactic(auto)]

mod made;
mod passing;
mod ready;
mod shut;
#[cfg(test)]
mod tests;

pub use shut::Shut;
