// Tests of the stores: their edges, what a layer sets below, layers over layers, and what lent memory holds in the end.
#![tactic(auto)]

#[cfg(test)]
mod edges;
#[cfg(test)]
mod layers;
pub mod lent;
