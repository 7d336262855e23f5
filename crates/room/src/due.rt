/// What comes next in a body.
#[derive(Clone, Copy, PartialEq, Eq, Debug)]
pub enum Due {
    /// Nothing more.
    Done,
    /// A value.
    Value,
    /// A cell of a row: a value or a gap.
    Cell,
    /// The key of a pair of an object.
    MapKey,
    /// The begin of a row.
    RowBegin,
    /// The key of a column of a row.
    RowKey,
    /// The end of a row.
    RowEnd,
    /// The end of an object.
    MapEnd,
    /// The end of an array or of a template.
    ArrayEnd,
}
