//! The first of several places.

ghost use Rattle.std.specs.Prelude.{◌≡◌};
ghost use Rattle.core_types.specs.Found.{earlier_place_if, earlier_fault};

/// A place, if something is broken at it, or an earlier one.
pub fn earlier_place_if(is_broken: bool, first: Option<u32>, at: u32) -> Option<u32>
    ensures { result ≡ earlier_place_if is_broken first at }
{
    if !is_broken {
        return first;
    }
    match first {
        None => Some(at),
        Some(earliest) => {
            if at < earliest {
                Some(at)
            } else {
                Some(earliest)
            }
        }
    }
}

/// The first of what was found and of a rule with a larger number that is broken at a place.
pub fn earlier_fault(found: Option<(u8, u32)>, rule: u8, place: Option<u32>) -> Option<(u8, u32)>
    ensures { result ≡ earlier_fault found rule place }
{
    match place {
        None => found,
        Some(at) => match found {
            None => Some((rule, at)),
            Some((earlier, first)) => {
                if at < first {
                    Some((rule, at))
                } else {
                    Some((earlier, first))
                }
            }
        },
    }
}
