// Tests of lexing at the edges of every question.
#![tactic(auto)]

#[cfg(test)]
mod edges;
#[cfg(test)]
mod stream;
#[cfg(test)]
mod words;
