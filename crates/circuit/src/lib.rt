// Circuits (document 01, "Gates"): the sorts of wires, gates as five words, and checks 20 and 21.
#![tactic(auto)]

pub mod checks;
pub mod gates;
pub mod numbers;
pub mod sorts;
