//! Reading an archive is the inverse of writing one.
ghost use Rattle.encoding.specs.Inverse.{Inverse};

/// Bytes are read as an archive exactly when they are the encoding of a valid date and closed plans, and then as just these.
pub fn reading_inverts_writing()
    ensures { Inverse }
{}
