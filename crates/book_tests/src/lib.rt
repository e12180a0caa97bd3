// The calls of the book, played from tables over every house, and helpers that see every case closed.
#![tactic(auto)]

#[cfg(test)]
mod asking;
#[cfg(test)]
mod calls;
mod cases;
#[cfg(test)]
mod days;
#[cfg(test)]
mod defaults;
#[cfg(test)]
mod desk;
#[cfg(test)]
mod funds;
#[cfg(test)]
mod lists;
#[cfg(test)]
mod making;
#[cfg(test)]
mod members;
#[cfg(test)]
mod playing;
#[cfg(test)]
mod strangers;
#[cfg(test)]
mod tests;
