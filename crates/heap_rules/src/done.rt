// What an operation of a heap answers.

/// The answer of one of the operations that both heaps have. The owner makes its reply of it, in which it
/// names objects in its own way.
#[derive(Clone, Copy, PartialEq, Eq, Debug)]
pub enum Done {
    /// The operation was done.
    Ok,
    /// A variable that had to name an object was empty.
    Empty,
    /// The object has no field of that index.
    Range,
    /// What was read held nothing, and the variable is empty now.
    Null,
    /// The variable names this object now.
    Object(u32),
}
