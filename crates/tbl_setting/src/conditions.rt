//! Conditions of lines outside of tables, as far as it is known that they hold or fail.
ghost use Rattle.std.specs.Prelude.{◌≡◌};
ghost use Rattle.tbl_setting.specs.Conditions as specs;

use super::arguments::argument;

/// Whether a condition is known to hold.
fn holds(condition: &[u8]) -> bool
    ensures { result ≡ specs.holds condition.now }
{
    condition == b"n".as_slice() || condition == b"1".as_slice()
}

/// Whether it is known to fail.
fn fails(condition: &[u8]) -> bool
    ensures { result ≡ specs.fails condition.now }
{
    condition == b"t".as_slice() || condition == b"0".as_slice()
}

/// Whether a request is `.if` or `.ie`.
fn is_conditional(request: &[u8]) -> bool
    ensures { result ≡ specs.is_conditional request.now }
{
    matches!(request, [b'i', b'f' | b'e', b' ', ..])
}

/// Whether it is `.ie`.
fn is_choice(request: &[u8]) -> bool
    ensures { result ≡ specs.is_choice request.now }
{
    matches!(request, [b'i', b'e', b' ', ..])
}

/// Whether it is `.el`.
fn is_otherwise(request: &[u8]) -> bool
    ensures { result ≡ specs.is_otherwise request.now }
{
    matches!(request, [b'e', b'l', b' ', ..])
}

/// Whether a request is not done, where the condition of the last `.ie` held or not.
pub(crate) fn is_left_out(request: &[u8], held: bool) -> bool
    ensures { result ≡ specs.is_left_out request.now held }
{
    if is_conditional(request) {
        fails(argument(request, 0))
    } else {
        held && is_otherwise(request)
    }
}

/// Whether after a request the condition of the last `.ie` held: its `.el` ends that.
pub(crate) fn held_after(request: &[u8], held: bool) -> bool
    ensures { result ≡ specs.held_after request.now held }
{
    if is_choice(request) {
        holds(argument(request, 0))
    } else {
        held && !is_otherwise(request)
    }
}
