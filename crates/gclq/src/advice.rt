use outside_std::FileCause;

/// What was wrong with a file that was to be read, and what to do.
pub fn advice_on_load(cause: Option<FileCause>) -> &'static str {
    match cause {
        Some(FileCause::NotText) => "its name is not UTF-8: rename it",
        Some(FileCause::NotThere) => {
            "there is no such file: give its path from the folder where gclq runs"
        }
        Some(FileCause::NotAllowed) => "you may not read it: change its permissions",
        Some(FileCause::Folder) => "it is a folder: name a file",
        Some(FileCause::Links) => "its symbolic links lead in a circle: name the file itself",
        Some(FileCause::LongName) => "its name is too long for the system: give a shorter one",
        _ => "the system cannot read it: see that it is a file, and that its disk works",
    }
}

/// What was wrong with a file that was to be saved, and what to do.
pub fn advice_on_keep(cause: Option<FileCause>) -> &'static str {
    match cause {
        Some(FileCause::NotText) => "its name is not UTF-8: give another one",
        Some(FileCause::NotThere) => "there is no such folder: make it first",
        Some(FileCause::NotAllowed) => {
            "you may not write in its folder: change that, or save elsewhere"
        }
        Some(FileCause::Folder) => "it is a folder: name a file",
        Some(FileCause::NotAFile) => "it is a device or a pipe: name a file",
        Some(FileCause::Links) => "its symbolic links lead in a circle: name the file itself",
        Some(FileCause::Full) => "its disk has no room left: make some, or save elsewhere",
        Some(FileCause::LongName) => "its name is too long for the system: give a shorter one",
        Some(FileCause::Leftovers) => {
            "killed runs left a million files .gclq-N.new in its folder: remove them"
        }
        _ => "the system cannot write it: see that its disk works, or save elsewhere",
    }
}

/// What is also said of a name that a shell would have changed.
pub fn advice_on_name(name: &str) -> &'static str {
    if name.starts_with('~')
        || name.starts_with('"')
        || name.starts_with('\'')
        || name.contains('*')
    {
        "; a name is taken as it is, with each ~, * and quote"
    } else {
        ""
    }
}
