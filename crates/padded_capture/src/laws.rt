ghost use Rattle.padded_capture.specs.Playing.{HeaderStays, RecordsAreWhole};

/// A law: a padded capture has the header of the capture. Its records are those of the capture, each with zeros where bytes of
/// its frame are missing, and it ends as the capture does.
pub fn padded_is_whole()
    ensures header { HeaderStays }
    ensures records { RecordsAreWhole }
{}
