// The contribution run on the worked figures, at the edges of its limits and through the order of its checks.
#![tactic(auto)]

#[cfg(test)]
mod tests;
