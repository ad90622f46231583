//! The law of the canonical text of scripts.
ghost use Rattle.camp_script.specs.Canonical.{ReadIsWritable, ReadsBack};

/// Sections of calls that a script can contain, within the limits, have a canonical text, and reading that
/// text gives the sections back.
pub fn canonical_text_reads_back()
    ensures law { ReadsBack }
{}

/// Whatever is read can be written: its calls can be in a script, and it is within the limits.
pub fn what_is_read_can_be_written()
    ensures law { ReadIsWritable }
{}
