// The fields of document 01, each with a type of its own, so that no function takes one for another. What is asked
// of every type of one word alike, reading, testing and writing, is `words::Worded`; of a kind named by its letter, `words`.

#![tactic(auto)]

pub mod aircraft;
pub mod flight;
pub mod frame;
pub mod heads;
pub mod idents;
pub mod pairs;
pub mod plan;
pub mod track;
pub mod words;
