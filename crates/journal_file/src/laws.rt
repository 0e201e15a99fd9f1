//! The laws of journal files: what is written is read again, and a file has one reading.

ghost use Rattle.journal_file.specs.Laws.{WrittenIsRead, ReadIsWritten, HasOneReading};

/// A law: the file of a journal in which no sender is 255, of at most 300,000,000 bytes, reads as that journal.
pub fn written_is_read()
    ensures { WrittenIsRead }
{}

/// A law: a file that reads as a journal is that journal's file, has at most 300,000,000 bytes, and no sender in it is
/// 255.
pub fn read_is_written()
    ensures { ReadIsWritten }
{}

/// A law: no file is that of two journals in which no sender is 255.
pub fn has_one_reading()
    ensures { HasOneReading }
{}
