//! A room that a text is measured against.

/// What is left of the room, or `None` once a piece did not fit.
#[derive(Clone, Copy)]
pub(crate) struct Room {
    pub(crate) left: Option<usize>,
}
