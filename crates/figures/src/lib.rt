// The figures of the rules, shown from the definitions that the contracts cite.
#![tactic(auto)]

#[cfg(test)]
mod table;
