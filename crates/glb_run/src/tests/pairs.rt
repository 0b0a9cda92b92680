//! Lists of two members.
ghost use Rattle.std.specs.Prelude.{◌≡◌, [], ◌∷◌, length};

/// The two members of a list.
pub(super) fn both_of<T: Drop>(list: Vec<T>) -> (T, T)
    requires { length list.items ≡ 2 }
    ensures { list.items ≡ result.0 ∷ result.1 ∷ [] }
{
    let mut list = list;
    let second = list.pop().unwrap();
    let first = list.pop().unwrap();
    (first, second)
}
