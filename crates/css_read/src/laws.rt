//! Laws of reading: what depends on the text alone, and what pruning preserves.
ghost use Rattle.css_read.specs.Effects.{KeepsSheets};
ghost use Rattle.css_read.specs.Shapes.{HasOneShape};

/// Whatever names the table had before, two accepted readings of one text agree. They have the same selectors at the same
/// places and in the same rules. They skip the same ones for the same causes.
pub fn one_text_one_shape(text: &[u8])
    ensures { HasOneShape text.now }
{}

/// Pruning keeps the sheet. The text without the flagged selectors reads as the selectors that stay, judged or skipped as
/// before, if its names are known. For every test that the flagged selectors fail, the selectors that pass keep their blocks
/// and the at-rules around them.
pub fn pruning_keeps_the_sheet(text: &[u8])
    ensures { KeepsSheets text.now }
{}
