// The place of a rule: its scope and its key.
ghost use Rattle.std.specs.Prelude.{◌≡◌};
ghost use Rattle.network_tables.specs.Words.{is_arc};

use vehicle_classes::Key;

/// The roads for which a rule stands: those of the area at a place from 0, or the arc of a number from 1.
#[derive(Clone, Copy, PartialEq, Eq, Hash)]
pub enum Scope {
    Area(usize),
    Arc(u32),
}

impl Scope {
    // Whether it is one arc.
    pub(crate) fn is_arc(self) -> bool
        ensures { result ≡ is_arc self }
    {
        match self {
            Scope::Area(_place) => false,
            Scope::Arc(_number) => true,
        }
    }
}

/// The place of a rule: its scope, its key, and whether its value is conditional.
#[derive(Clone, Copy, PartialEq, Eq, Hash)]
pub struct RulePlace {
    pub scope: Scope,
    pub key: Key,
    pub conditional: bool,
}
