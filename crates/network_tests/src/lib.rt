//! Tests of the libraries that read, draw and expand networks, as a stranger calls them. Each library's tests are in a module by its
//! name. The crate has no calls of its own.
#![tactic(auto)]

#[cfg(test)]
mod tests;
