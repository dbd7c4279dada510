//! Tests of the loop that serves a connection, over links in memory, and of the server of a network.
#![tactic(auto)]

#[cfg(test)]
mod alone;
#[cfg(test)]
mod apps;
#[cfg(test)]
mod calling;
#[cfg(test)]
mod consoles;
#[cfg(test)]
mod crowd;
#[cfg(test)]
mod guide;
#[cfg(test)]
mod listening;
#[cfg(test)]
mod others;
#[cfg(test)]
mod parting;
#[cfg(test)]
mod talks;
#[cfg(test)]
mod visitors;
