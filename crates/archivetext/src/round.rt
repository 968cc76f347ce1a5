//! The text of an archive stands for that archive.
ghost use Rattle.archivetext.specs.Round.{RoundTrip};

/// The text of every archive is read as that archive, so unpacking and packing again gives the same bytes.
pub fn text_stands_for_archive()
    ensures { RoundTrip }
{}
