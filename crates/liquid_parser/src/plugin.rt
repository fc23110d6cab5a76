//! What a caller writes: plug-ins of tags and blocks, and the language that contains them.

pub(crate) mod block;
pub(crate) mod language;
pub(crate) mod none;
pub(crate) mod tag;
