ghost use Rattle.std.specs.Prelude.{◌≡◌, slice_get, slice_set, None, Some, option_copied};
ghost use Rattle.zy_world.specs.Shown.{seat_in};
ghost use Rattle.zy_world_law.specs.World.{correct_in, is_told};

/// Who sits in a seat.
#[derive(Clone, Copy, Debug, PartialEq, Eq)]
pub(crate) enum Seat {
    Nobody,
    Liar,
    Correct,
}

pub(crate) fn seat_at<T>(seats: &[Option<T>], at: usize) -> Seat
    ensures { result ≡ seat_in (slice_get seats.now at) }
{
    match seats.get(at) {
        None => Seat::Nobody,
        Some(None) => Seat::Liar,
        Some(Some(_)) => Seat::Correct,
    }
}

/// Whether somebody sits in this seat.
pub(crate) fn is_there<T>(seat: &Option<T>) -> bool
    ensures { result ≡ is_told seat.now }
{
    match seat {
        Some(_) => true,
        None => false,
    }
}

/// Who or what stands there.
pub(crate) fn sitting<T>(seats: &[Option<T>], at: usize) -> Option<&T>
    ensures { option_copied result ≡ correct_in (slice_get seats.now at) }
{
    match seats.get(at) {
        Some(Some(party)) => Some(party),
        Some(None) => None,
        None => None,
    }
}

/// Who or what stands there, which is taken out.
pub(crate) fn take_from<T: Drop>(seats: &mut Vec<Option<T>>, at: usize) -> Option<T>
    ensures taken { result ≡ correct_in (slice_get seats.old.items at) }
    ensures left { seats.new.items ≡ slice_set seats.old.items at None }
{
    match seats.get_mut(at) {
        Some(seat) => seat.take(),
        None => None,
    }
}

/// Changes nothing where there is no such seat.
pub(crate) fn put_in<T: Drop>(seats: &mut Vec<Option<T>>, at: usize, party: T)
    ensures { seats.new.items ≡ slice_set seats.old.items at (Some party) }
{
    if let Some(seat) = seats.get_mut(at) {
        *seat = Some(party);
    }
}
