ghost use Rattle.gcl_model.specs.Laws.{StartIsSound, AddingKeepsSoundness, DeletingKeepsSoundness};
ghost use Rattle.gcl_model.specs.Laws.{StepsKeepSoundness, WordsAreText, WordsAreAtAddresses};

/// The collection that begins at an address up to `ADDRESS_END` is sound.
pub fn start_is_sound()
    ensures { StartIsSound }
{}

/// A file that may be added leaves a sound collection sound.
pub fn adding_keeps_soundness()
    ensures { AddingKeepsSoundness }
{}

/// So does the deletion of any id.
pub fn deleting_keeps_soundness()
    ensures { DeletingKeepsSoundness }
{}

/// So does each step: an add, a deletion, or the opening of an image.
pub fn steps_keep_soundness()
    ensures { StepsKeepSoundness }
{}

/// The words of a sound collection are at rising addresses, between its first and its next.
pub fn words_are_text()
    ensures { WordsAreText }
{}

/// They are the tokens at its addresses.
pub fn words_are_at_addresses()
    ensures { WordsAreAtAddresses }
{}
