ghost use Rattle.std.specs.Prelude.{◌≡◌, ◌<◌, ◌^◌, List, length, flat_map, map};
ghost use mathlib.Core.List.{IsPrefix};
ghost use Rattle.kom_types.specs.declared.items.Item.{Item};
ghost use Rattle.kom_types.specs.Printing.{print_of};

/// A law alone: what was printed is cut into items' prints in one way only. Bytes in memory are
/// fewer than 2^64; of a string of 10^64 and more the definitions spell a part of the length only.
pub fn cut_one_way()
    ensures item { (first second : Item) → length (print_of first) < 2 ^ 64
        → IsPrefix (print_of first) (print_of second) → print_of first ≡ print_of second }
    ensures items { (first second : List Item) → length (flat_map print_of first) < 2 ^ 64
        → IsPrefix (flat_map print_of first) (flat_map print_of second)
        → IsPrefix (map print_of first) (map print_of second) }
    ensures whole { (first second : List Item) → length (flat_map print_of first) < 2 ^ 64
        → flat_map print_of first ≡ flat_map print_of second
        → map print_of first ≡ map print_of second }
{}
