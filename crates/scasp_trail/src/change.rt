//! What a change has overwritten.

/// A mark, or a change of what a mark has, with what it has overwritten.
#[derive(Drop)]
pub(crate) enum Change<T> {
    /// The list was marked, when so many of its first items were those of the mark before.
    Mark(usize),
    /// The last item was taken away.
    Popped(T),
    /// The item of this place had another one in its place.
    Replaced(usize, T),
    /// An item was put in at this place.
    Inserted(usize),
}
