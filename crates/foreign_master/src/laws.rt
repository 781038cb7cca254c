//! What is so of the qualified set as time goes on.

ghost use Rattle.std.specs.Prelude.{◌≡◌, ◌↔◌, ◌⊎◌, ℕ, ◌≤◌, List, [], ◌∷◌, IsTrue};
ghost use Rattle.ptp_profile.specs.declared.foreign_master.KeptAnnounce.{KeptAnnounce};
ghost use Rattle.ptp_profile.specs.Best.ForeignMasters.{qualified};
ghost use Rattle.foreign_master.specs.ForeignMasterTable.{IsReached};
ghost use Rattle.foreign_master.specs.SettledRecords.{is_settled};

/// Where the last kept Announce is the latest, the records are settled at a moment from that on
/// exactly where the qualified set is empty then, or the same as at the moment of that Announce.
pub fn settled_is_same_set()
    ensures { (w m : ℕ) (h : KeptAnnounce) (kept : List KeptAnnounce)
        → IsReached h.at kept → h.at ≤ m
        → IsTrue (is_settled w m (h ∷ kept))
        ↔ ((qualified w m (h ∷ kept) ≡ [])
        ⊎ (qualified w m (h ∷ kept) ≡ qualified w h.at (h ∷ kept))) }
{}
