// What the programs share that read a job from standard input and print an answer: reading and parting the input, the
// lines of the answers, tapes as text, and writing the answer.

#![tactic(auto)]

pub mod input;
pub mod line;
pub mod output;
pub mod tape;
