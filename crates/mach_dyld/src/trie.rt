//! The nodes of an export trie, the walk over all of them, and the look-up of one name.

pub(crate) mod cursor;
pub(crate) mod look_up;
pub(crate) mod marks;
pub(crate) mod node;
pub(crate) mod runs;
pub(crate) mod walk;
