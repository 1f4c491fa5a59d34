//! Laws on texts that are always read.
ghost use Rattle.ring_reads.specs.Readings.{ReadsRingPages, ReadsRingSheets, ReadsShortSheets};
ghost use Rattle.ring_reads.specs.RingScripts.{ReadsClasses, ReadsRingMarkup, ReadsRingRoots};
ghost use Rattle.ring_reads.specs.RingWords.{ScansRings};

/// A sheet of UTF-8 is read, whatever stands in it, where it has no more bytes than a sheet may have selectors, and the table
/// room for as many names.
pub fn short_sheets_are_read()
    ensures { ReadsShortSheets }
{}

/// The page and the sheet of each ring are read, with few names.
pub fn rings_are_read()
    ensures page { ReadsRingPages }
    ensures sheet { ReadsRingSheets }
{}

/// A list of selectors that is one class is read, with at most one name.
pub fn classes_are_read()
    ensures { ReadsClasses }
{}

/// The script of each ring is the words of its lines, one after another, and what these have in their brackets is read.
pub fn ring_scripts_are_words()
    ensures words { ScansRings }
    ensures roots { ReadsRingRoots }
    ensures markup { ReadsRingMarkup }
{}
