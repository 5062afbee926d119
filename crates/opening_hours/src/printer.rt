// From rules to their canonical text.
mod text;
pub(crate) mod tokens;
