// The blocks of a rota file: the tests of one block, and the reader that goes from block to block.
#![tactic(auto)]

pub mod checks;
pub mod reader;
