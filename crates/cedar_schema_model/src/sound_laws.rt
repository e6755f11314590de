//! A built schema is what it has to be exactly where no fault is found in it, and so it is where declarations are well-formed. Each
//! function's contract is the theorem; its body does nothing.

ghost use Rattle.cedar_schema_model.specs.SoundLaws.{SoundDecides, KeptAreSound, KeptAreFaultless};

/// The search for a fault decides whether a schema is what it has to be.
pub fn sound_is_decided()
    ensures { SoundDecides }
{}

/// What is kept of the schema of well-formed declarations is what it has to be, for the same extension types, and so nothing is
/// found wrong with it.
pub fn kept_are_sound()
    ensures sound { KeptAreSound }
    ensures faultless { KeptAreFaultless }
{}
