//! Moments in decimal digits.

ghost use Rattle.std.specs.Prelude.{◌≡◌};
ghost use Rattle.pass_lines.specs.MomentText.{moment_in};

use line_text::{LAST_TIME, Moment};
use relay_base::whole_number_up_to;

/// The moment that decimal digits write, in seconds, or `None` if the text is empty or has any other byte, or
/// the number is above 9,007,199,254,740,992.
pub fn moment_of(text: &str) -> Option<Moment>
    ensures { result ≡ moment_in text.now }
{
    Moment::new(whole_number_up_to(text, LAST_TIME)?)
}
