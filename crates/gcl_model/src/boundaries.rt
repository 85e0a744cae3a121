ghost use Rattle.std.specs.Prelude.{◌≡◌};
ghost use Rattle.gcl_model.specs.Collections as model;

/// The token before those of a file.
pub fn file_start() -> &'static [u8]
    ensures { result.now ≡ model.file_start }
{
    b"<file!>"
}

/// The token after those of a file.
pub fn file_end() -> &'static [u8]
    ensures { result.now ≡ model.file_end }
{
    b"</file!>"
}
