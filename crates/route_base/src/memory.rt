// The traits' objects in memory: folders and sinks for tests and for callers without files.
pub mod dripping;
pub mod folders;
pub mod sinks;
