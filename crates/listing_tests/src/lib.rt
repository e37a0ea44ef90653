// Listings and what is printed of them.
#![tactic(auto)]

#[cfg(test)]
mod edges;
#[cfg(test)]
mod faults;
#[cfg(test)]
mod outputs;
#[cfg(test)]
mod reader;
#[cfg(test)]
mod scripts;
#[cfg(test)]
mod words;
