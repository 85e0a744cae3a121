ghost use Rattle.std.specs.Prelude.{◌≡◌, ◌≤◌};
ghost use Rattle.gcl_model.specs.Limits.{address_end};
ghost use Rattle.gcl_model.specs.Texts.{Text};
ghost use Rattle.gcl_eval.specs.Directions.{access_of};
ghost use Rattle.fixed_width.specs.Widths.{width_list, HasSpan};

use crate::direction::Access;
use fixed_width::{width_first_end, width_first_start, width_last_end, width_last_start};
use gcl_model::{Interval, Span};

/// An access of the intervals of one width, which looks nothing up.
#[inline]
pub(crate) fn width_access(width: u64, access: Access, span: Span, k: u64) -> Option<Interval>
    requires some { 1 ≤ width }
    requires most { width ≤ address_end }
    ensures { (text : Text) → HasSpan text span.first span.next → result ≡ access_of access (width_list text width) k }
{
    match access {
        Access::FirstStart => width_first_start(width, span, k),
        Access::FirstEnd => width_first_end(width, span, k),
        Access::LastEnd => width_last_end(width, span, k),
        Access::LastStart => width_last_start(width, span, k),
    }
}
