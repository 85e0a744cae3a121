ghost use Rattle.std.specs.Prelude.{◌≡◌};
ghost use Rattle.gcl_model.specs.Tokens.{is_blank};

/// Whether a byte separates words of a query or of a script's line: a space or a tab.
pub fn is_blank(byte: u8) -> bool
    ensures { result ≡ is_blank byte }
{
    byte == b' ' || byte == b'\t'
}
