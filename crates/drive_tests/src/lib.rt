//! Tests of drives' scripts that are read.
#![tactic(auto)]

#[cfg(test)]
mod clients;
#[cfg(test)]
mod reading;
#[cfg(test)]
mod refused;
#[cfg(test)]
mod scripts;
#[cfg(test)]
mod told;
