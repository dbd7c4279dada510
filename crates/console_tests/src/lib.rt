//! Tests of scripts that are read, and of consoles that run one over a link in memory.
#![tactic(auto)]

#[cfg(test)]
mod calling;
#[cfg(test)]
mod parting;
#[cfg(test)]
mod reading;
#[cfg(test)]
mod scripts;
#[cfg(test)]
mod talks;
