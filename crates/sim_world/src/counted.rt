//! Items that a file counts from 1: maps and messages.

ghost use Rattle.std.specs.Prelude.{◌≡◌, ◌≤◌, ◌-◌, option_copied};
ghost use Rattle.sim_world.specs.Lines.{numbered};

/// The one of that number, if the items are numbered from 1, as maps and messages are.
pub fn numbered<T>(items: &[T], number: u64) -> Option<&T>
    ensures { option_copied result ≡ numbered items.now number }
{
    if number == 0 {
        return None;
    }
    items.get(place_of(number))
}

/// The place of the one of that number, from 0.
fn place_of(number: u64) -> usize
    requires { 1 ≤ number }
    ensures { result ≡ number - 1 }
{
    (number - 1) as usize
}
