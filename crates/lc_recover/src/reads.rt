//! What areas read as is one store.
ghost use Rattle.std.specs.Prelude.{◌≡◌, ℕ, List};
ghost use Rattle.lc_record.specs.declared.geometry.Geometry.{Geometry as TheGeometry};
ghost use Rattle.lc_model.specs.Merge.{StoreText};
ghost use Rattle.lc_recover.specs.Reads.{store_of};
ghost use Rattle.lc_recover.specs.ReadsAs.{ReadsAs};

/// Areas of any bytes read as a store, and as no other: the one that `store_of` computes.
pub fn one_store()
    ensures reads { (g : TheGeometry) (areas : List (List ℕ)) → ReadsAs g areas (store_of g areas) }
    ensures one { (g : TheGeometry) (areas : List (List ℕ)) (store : StoreText) → ReadsAs g areas store
        → store ≡ store_of g areas }
{}
