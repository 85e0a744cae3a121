ghost use Rattle.std.specs.Prelude.{◌≡◌, ◌<◌, ◌≤◌, ◌↔◌, ◌∷◌, length, take, drop, IfSome, IsNone};
ghost use Rattle.script_lang.specs.Blanks.{without_back};
ghost use Rattle.script_lang.specs.Lines.{lines, without_return, line_end, line_of_cut, IsCut};

use crate::blanks::{back_blanks, front_blanks};
use crate::line_cut::LineCut;
use memchr::memchr;

/// Where the line that begins at `at` ends: at its newline, or at the end.
pub fn line_end(bytes: &[u8], at: usize) -> usize
    requires { at ≤ length bytes.now }
    ensures value { result ≡ line_end bytes.now at }
    ensures from { at ≤ result }
    ensures bound { result ≤ length bytes.now }
{
    match memchr(b'\n', &bytes[at..]) {
        Some(len) => at + len,
        None => bytes.len(),
    }
}

/// How many bytes are left of a line without a carriage return at its end and the blanks before that.
pub fn text_len(line: &[u8]) -> usize
    ensures value { take result line.now ≡ without_back (without_return line.now) }
    ensures bound { result ≤ length line.now }
{
    let end = match line {
        [.., b'\r'] => line.len() - 1,
        _ => line.len(),
    };
    end - back_blanks(&line[..end])
}

/// The line that begins at `at`, or None if `at` is the end. `most` is how many bytes a line may have without its
/// newline: if that is 3, the line `abcd` is long.
pub fn line_at(bytes: &[u8], at: usize, most: usize) -> Option<LineCut>
    requires { at ≤ length bytes.now }
    ensures none { IsNone result ↔ (at ≡ length bytes.now) }
    ensures places { IfSome result (IsCut bytes.now at) }
    ensures line { IfSome result (λ cut.
        lines most (drop at bytes.now) ≡ line_of_cut bytes.now cut ∷ lines most (drop cut.after bytes.now)) }
{
    if at == bytes.len() {
        return None;
    }
    let end = line_end(bytes, at);
    let after = (end + 1).min(bytes.len());
    if end - at > most {
        return Some(LineCut {
            from: at,
            to: at,
            after,
            long: true,
        });
    }
    let line = &bytes[at..end];
    let text = &line[..text_len(line)];
    Some(LineCut {
        from: at + front_blanks(text),
        to: at + text.len(),
        after,
        long: false,
    })
}
