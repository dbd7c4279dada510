//! Tests of links that a heart watches: polls in a row, what is offered, and when the peer is given up; and of a connection over one.
#![tactic(auto)]

#[cfg(test)]
mod links;
#[cfg(test)]
mod serving;
