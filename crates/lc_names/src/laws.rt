//! Laws of tables of names.
ghost use Rattle.std.specs.Prelude.{◌↔◌, ℕ, Contains, IsSome, List};
ghost use Rattle.std.specs.List.{IsDistinct};
ghost use Rattle.std.specs.Str.{bytes_eq};
ghost use Rattle.lc_names.specs.Table.{attributes_in, IsTable, names_in};

/// The names in use in a table are those of its map, each once.
pub fn names_of_the_map()
    ensures same { (entries : List (List ℕ)) (name : List ℕ) → Contains (names_in entries) name
        ↔ IsSome (attributes_in entries name) }
    ensures once { (entries : List (List ℕ)) → IsTable entries → IsDistinct bytes_eq (names_in entries) }
{}
