// What the replay of a list of cards counts and writes, for the program `card_cases`.
#![tactic(auto)]

pub mod print;
pub mod tally;
