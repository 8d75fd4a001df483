//! Writing a text to a report.

ghost use Rattle.cf_report.specs.Putting.{PutsText};

use cf_io::{Failed, Sink, put_all};

/// Writes a text. After `Failed` a prefix of it was written, and the count of the report's faults rose.
pub(crate) fn put_text<R: Sink>(text: &[u8], report: &mut R) -> Result<(), Failed>
    ensures { PutsText (R.written report.old) (R.written report.new)
        (R.faults report.old) (R.faults report.new) text.now result }
{
    put_all(report, text)
}
