ghost use Rattle.std.specs.Prelude.{◌≡◌, ◌≤◌, length};
ghost use Rattle.gcl_model.specs.Access.{first_start, first_end, last_end, last_start};
ghost use Rattle.gcl_model.specs.Limits.{address_end};
ghost use Rattle.gcl_model.specs.Texts.{Text};
ghost use Rattle.fixed_width.specs.Widths.{width_list, HasSpan};

use gcl_model::{Interval, Span};

/// The first interval of `n` addresses that starts at or after `k`.
pub fn width_first_start(n: u64, span: Span, k: u64) -> Option<Interval>
    requires some { 1 ≤ n }
    requires most { n ≤ address_end }
    ensures { (text : Text) → HasSpan text span.first span.next → result ≡ first_start (width_list text n) k }
{
    let start = span.first.max(k);
    let room = span.next.checked_sub(start)?;
    if n <= room {
        Some(Interval::new(start, start + (n - 1)))
    } else {
        None
    }
}

/// The first that ends at or after `k`.
pub fn width_first_end(n: u64, span: Span, k: u64) -> Option<Interval>
    requires some { 1 ≤ n }
    requires most { n ≤ address_end }
    ensures { (text : Text) → HasSpan text span.first span.next → result ≡ first_end (width_list text n) k }
{
    width_first_start(n, span, k.saturating_sub(n - 1))
}

/// The last that ends at or before `k`.
pub fn width_last_end(n: u64, span: Span, k: u64) -> Option<Interval>
    requires some { 1 ≤ n }
    requires most { n ≤ address_end }
    ensures { (text : Text) → HasSpan text span.first span.next → result ≡ last_end (width_list text n) k }
{
    let next = if k < span.next { k + 1 } else { span.next };
    let start = next.checked_sub(n)?;
    if span.first <= start {
        Some(Interval::new(start, start + (n - 1)))
    } else {
        None
    }
}

/// The last that starts at or before `k`.
pub fn width_last_start(n: u64, span: Span, k: u64) -> Option<Interval>
    requires some { 1 ≤ n }
    requires most { n ≤ address_end }
    ensures { (text : Text) → HasSpan text span.first span.next → result ≡ last_start (width_list text n) k }
{
    width_last_end(n, span, k.min(span.next) + (n - 1))
}

/// How many there are, by one subtraction.
pub fn width_count(n: u64, span: Span) -> u64
    requires some { 1 ≤ n }
    ensures { (text : Text) → HasSpan text span.first span.next → result ≡ length (width_list text n) }
{
    (span.next - span.first + 1).saturating_sub(n)
}
