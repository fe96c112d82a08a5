//! Laws of where the entries of unveil tables were set.

ghost use Rattle.pv_laws_answers.specs.Settings.{EachEntryIsSet, SettingsReportUnveils};

/// Along a run that starts without tables, each live process has exactly one setting for each entry of its table, so
/// the line of an entry is always known.
pub fn each_entry_is_set()
    ensures { EachEntryIsSet }
{}

/// A setting names the last unveil that gave the entry its permissions: the line of the process that made it, which is
/// this process or an ancestor, and whether one of them has started a new program since.
pub fn settings_report_unveils()
    ensures { SettingsReportUnveils }
{}
