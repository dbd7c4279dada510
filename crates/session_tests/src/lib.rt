//! Sessions that take texts and are fed, what they take no more of, and a history that is full. What a line of `replay` can show
//! is a script among the examples.
#![tactic(auto)]

#[cfg(test)]
mod bench;
#[cfg(test)]
mod history;
#[cfg(test)]
mod limits;
#[cfg(test)]
mod looks;
#[cfg(test)]
mod moments;
#[cfg(test)]
mod scripts;
