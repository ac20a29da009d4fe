//! What an index finds when it follows a table, or comes a step nearer to it.

/// What [`Index::follow`](crate::Index::follow) found of a table, or the step that
/// [`Index::approach`](crate::Index::approach) took towards one. What is kept for each entry by its number in the
/// order of rank and place stays as it is where the entries are unchanged. It is to be made anew for one number where
/// one treatment differs, and moves by one number where an entry was added or deleted. It is told of the entries that
/// the index has then against those that it had.
#[derive(Clone, Copy, Debug, PartialEq, Eq)]
pub enum Followed {
    /// They are the same, and those of the table.
    Unchanged,
    /// The keys are the same in the same order, and of the treatments only that of the entry of this number, in
    /// the order of rank and place, may differ.
    Treatment(u8),
    /// There is one entry more, at the end, which has this number. The entries that had this number or a higher
    /// one have the next number now.
    Added(u8),
    /// There is one entry less, which had this number. The entries that had a higher number have the one before
    /// now.
    Deleted(u8),
    /// Anything else: order and masks were made anew, and the entries are those of the table.
    Rebuilt,
}
