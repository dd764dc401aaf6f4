//! What bytes are added to.
ghost use Rattle.std.specs.Prelude.{◌≡◌};

use nr_reading::Half;

/// What bytes are added to that stand for themselves in copy mode.
#[derive(Clone, Copy)]
pub(crate) enum Target {
    /// The argument of a macro that is being read.
    Argument,
    /// The text that is being defined.
    Text,
}

impl Target {
    ghost use Rattle.std.specs.Prelude.{true, IfSome};
    ghost use Rattle.fast_input.specs.Target.{is_read_for, target_of};

    /// What the next item is read for, if for one of these, and in its midst.
    #[inline(always)]
    pub(crate) fn of(half: &Half) -> Option<Target>
        ensures value { result ≡ target_of half.now }
        ensures reads { IfSome result (λ target. is_read_for target half.now ≡ true) }
    {
        if half.is_in_argument() {
            return Some(Target::Argument);
        }
        if half.is_in_definition() {
            return Some(Target::Text);
        }
        None
    }
}
