// Day sheets run from beginning to end, and what they print.
#![tactic(auto)]

#[cfg(test)]
mod tests;
