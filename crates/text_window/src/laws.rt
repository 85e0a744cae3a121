ghost use Rattle.text_window.specs.Laws.{WindowsAreParts};

/// The text between two addresses has the same words there as the whole text, and no address that the whole text lacks.
pub fn windows_are_parts()
    ensures { WindowsAreParts }
{}
