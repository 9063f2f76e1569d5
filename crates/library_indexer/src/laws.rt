//! What holds of a library that is completed, as a call that does nothing: its contract is the law.
ghost use Rattle.library_indexer.specs.Completed.{AreRead, AreKept};

/// A library that is completed is read: it has the same members, further on by the index, with the
/// same data, and each offers the names that it defines.
pub fn completed_libraries_are_read()
    ensures read { AreRead }
    ensures kept { AreKept }
{}
