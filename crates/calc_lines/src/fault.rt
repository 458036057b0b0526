//! Why a run of a line program ended before its input did.

/// Why a run ended before its input did. All earlier lines were answered, and their answers written.
#[derive(Clone, Copy, Debug, PartialEq, Eq)]
pub enum RunFault {
    /// Reading a line failed, for a reason other than memory. What was read of the line is lost, and its line feed is
    /// unread. Also after 2^64 - 1 lines.
    Read,
    /// Writing an answer failed, or the device took no byte: a proper prefix of the answer is written. The reader is after
    /// the line. Also after 2^64 - 1 interrupted attempts at one write.
    Write,
    /// Out of memory while a line was read, in the loop or in the reader. The line is as after `Read`.
    Memory,
    /// A line is not UTF-8. The session wasn't asked it. The reader is after the line.
    NotText,
}
