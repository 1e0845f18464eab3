//! What a user of directories relies on: where a path stays in one layer, a directory that a call opened or created is found by its
//! path, and one that a call removed is not; and of the database a call changes those keys alone that it wrote. And where a path leads into
//! a partition, with names of it left, the call is the same call on the partition's layer with these names, behind what was done before
//! (`specs/Remaining.antt`).
//!
//! These are laws of the definitions, proved once: for any layer, any arguments, any transaction and any random words.
#![tactic(auto)]

ghost use Rattle.laws_directory.specs.Found.{AreFoundInLayer, AreOpenedFound, AreRemovedGone, DoesAllElseStay};
ghost use Rattle.laws_directory.specs.Remaining.{AreDoneInside, AreMovedInside};

/// Shows to a proof what holds of directories after calls. It does nothing when it runs.
pub fn directories_are_found()
    ensures found { AreFoundInLayer }
    ensures opened { AreOpenedFound }
    ensures removed { AreRemovedGone }
    ensures others { DoesAllElseStay }
    ensures inside { AreDoneInside }
    ensures moved { AreMovedInside }
{}
