//! What holds of the definitions that the contracts cite.
ghost use Rattle.frame_rows.specs.Sight.{ValuesTellApart};
ghost use Rattle.frame_rows.specs.Use.{NumbersTheChosen};

/// A use has the number of an entry exactly where an entry is chosen.
pub fn law_of_uses()
    ensures { NumbersTheChosen }
{}

/// What is seen of a frame by two configurations, which is how it ends and the bytes with which it leaves, differs exactly where
/// the endings of its two rows, or the tags with which it leaves by them, differ.
pub fn law_of_sights()
    ensures { ValuesTellApart }
{}
