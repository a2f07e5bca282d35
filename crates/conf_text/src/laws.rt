//! Laws of the definitions, each the contract of a function that does nothing.

ghost use Rattle.conf_text.specs.Laws.{PrintedIsRead, NamesAreDistinct, FaultIsFirst, SettingsAreGood};

/// What a destination prints is read as that destination.
pub fn printed_destination_is_read()
    ensures { PrintedIsRead }
{}

/// In any text that is read as a configuration file, the names of the sections differ, and so do the keys of
/// each section.
pub fn names_are_distinct()
    ensures { NamesAreDistinct }
{}

/// A fault of the settings is that of the setting that it names, and every setting before that in the table is
/// good.
pub fn fault_is_first()
    ensures { FaultIsFirst }
{}

/// If settings are read, the row of each setting has no fault.
pub fn settings_are_good()
    ensures { SettingsAreGood }
{}
