// Cases: reading them from standard input, what they lend, and the text of their answers.
// docs/REPLAY.md says what a case is.

#![tactic(auto)]

pub mod answers;
pub mod case;
pub mod fault;
pub mod flags;
pub mod header;
pub mod input;
pub mod lenient;
pub mod operator;
pub mod owned;
pub mod playing;
pub mod shapes;
#[cfg(test)]
mod tests;
pub mod text;
