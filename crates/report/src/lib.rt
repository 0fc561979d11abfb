// What is said of a run, of a replayed log and of the examples of document 01, in plain words.
// Nothing is refused: any run, answer and verdict is said.
// Document 01 decides what an example shows, document 02 what a history needs to keep its answers.
#![tactic(auto)]

pub mod answer;
pub mod asked;
mod conditions;
pub mod example;
pub mod judged;
pub mod leaf;
pub mod shown;
