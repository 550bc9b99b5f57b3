//! Where the bytes of a read stand.

ghost use Rattle.runner_parts.specs.Staged.{BytesAreStaged};

/// The bytes of a read that finds them all stand in its blocks.
pub fn bytes_are_staged()
    ensures { BytesAreStaged }
{}
