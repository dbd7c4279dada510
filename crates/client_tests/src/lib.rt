//! Tests of a client with its server's texts: what is found in its view, how its calls end, and what it takes no more of. What a
//! line of `replay` or `revive` can show is a script among the examples.
#![tactic(auto)]

#[cfg(test)]
mod clients;
#[cfg(test)]
mod running;
#[cfg(test)]
mod scripts;
