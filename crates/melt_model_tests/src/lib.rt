//! Slow bodies of the definitions of `melt_model`, for small inputs, and tests that hold them to the worked histories. Nothing of
//! the program calls them: a definition that contracts cite is computed here, so that a reader sees that it means what it says.
#![tactic(auto)]

pub mod plain;
#[cfg(test)]
mod tests;
