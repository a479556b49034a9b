// The limits of a program.

/// A limit that a program may be over.
#[derive(Clone, Copy, Debug, PartialEq, Eq)]
pub enum Limit {
    /// At most 1,024 statements stand in a block.
    Statements,
    /// Blocks stand in one another at most 64 deep.
    Levels,
    /// At most 256 tokens of an expression count: operators, `(`, `[`, `.` and `len`.
    Depth,
    /// A method has at most 16 parameters, with its receiver.
    Params,
}
