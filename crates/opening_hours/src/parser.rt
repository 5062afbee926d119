// From tokens to rules.
mod parts;
pub(crate) mod rules;
