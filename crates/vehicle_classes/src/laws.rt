// The law of the words of keys.
ghost use Rattle.std.specs.Prelude.{◌≡◌, Some};
ghost use Rattle.vehicle_classes.specs.Keys.{key_label_of, key_of};
ghost use Rattle.vehicle_classes.specs.declared.classes.Key.{Key};

/// The law of a key's word: it is the word by which a table of rules names that key. The call does nothing.
pub fn key_labels_are_read()
    ensures { (key : Key) → key_of (key_label_of key) ≡ Some key }
{}
