//! What holds of the definitions that the contracts cite.
ghost use Rattle.capture.specs.Records.{RecordsAreRead};

/// A file that is a capture of some frames is read as these, unless they are more than can be
/// counted; so no file is a capture of two lists of frames.
pub fn law_of_records()
    ensures { RecordsAreRead }
{}
