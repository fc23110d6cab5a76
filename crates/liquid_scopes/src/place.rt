//! Places of frames, and lists of them.
ghost use Rattle.std.specs.Prelude.{◌≡◌, ◌<◌, ◌-◌, ◌++◌, ℕ, List, [], ◌∷◌, true, cond, length, vec_len, vec_capacity};
ghost use Rattle.std.specs.List.{slice_get};
ghost use Rattle.liquid_scopes.specs.steps.NamePlaces.{is_at, is_under};

pub(crate) fn is_at(unlisted: Option<usize>, place: usize) -> bool
    ensures { result ≡ is_at unlisted place }
{
    match unlisted {
        Some(unlisted) => place == unlisted,
        None => false,
    }
}

pub(crate) fn is_under(place: usize, other: Option<usize>) -> bool
    ensures { result ≡ is_under place other }
{
    match other {
        Some(other) => place < other,
        None => false,
    }
}

pub(crate) fn last_of(places: &Vec<usize>) -> Option<usize>
    ensures { result ≡ slice_get places.now.items (length places.now.items - 1) }
{
    match places.as_slice().last() {
        Some(place) => Some(*place),
        None => None,
    }
}

/// Adds the place to these if its frame is one of them.
pub(crate) fn keep_place(places: &mut Vec<usize>, is_one: bool, place: usize)
    requires { is_one ≡ true → vec_len places.old < vec_capacity places.old }
    ensures { places.new.items ≡ places.old.items ++ cond is_one (place ∷ []) [] }
{
    if is_one {
        places.push_reserved(place);
    }
}

/// Removes the last place if its frame was one of these.
pub(crate) fn drop_place(places: &mut Vec<usize>, is_one: bool)
    ensures { (kept : List ℕ) (place : ℕ) → places.old.items ≡ kept ++ cond is_one (place ∷ []) [] → places.new.items ≡ kept }
{
    if is_one {
        places.pop();
    }
}
