ghost use Rattle.std.specs.Prelude.{◌≡◌};
ghost use Rattle.index_plan.specs.Lists.{own_key};
ghost use Rattle.index_plan.specs.Seeking.{is_behind};

use record_model::Entry;

/// Where a key that is looked for stands against the key of an entry.
#[derive(Clone, Copy, Debug, PartialEq, Eq)]
pub enum KeySide {
    /// Behind it.
    Behind,
    /// On either side: the names are the same.
    Beside,
    /// It is this key.
    Here,
    /// Before it.
    Before,
}

impl KeySide {
    /// Whether the key stands behind that of the entry.
    pub fn is_behind(self) -> bool
        ensures { result ≡ is_behind self }
    {
        match self {
            KeySide::Behind => true,
            KeySide::Beside => false,
            KeySide::Here => false,
            KeySide::Before => false,
        }
    }
}

/// A key that is looked for.
pub trait Target {
    ghost use Rattle.index_model.specs.declared.key.Key.{Key};
    ghost use Rattle.index_plan.specs.declared.side.KeySide.{KeySide};

    ghost side: { Self → Key → KeySide };

    fn side(&self, entry: &Entry) -> KeySide
        ensures { result ≡ side self.now (own_key entry.now) };
}
