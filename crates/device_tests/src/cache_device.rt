//! Feeds of a cache device of which a call fails, or that crashes.
mod crashes;
mod tools;
