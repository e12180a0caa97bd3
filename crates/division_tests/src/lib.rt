// The division run at the edges of its limits, and its list looked at after each refusal.
#![tactic(auto)]

#[cfg(test)]
mod tests;
