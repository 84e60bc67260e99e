ghost use Rattle.std.specs.Prelude.{◌≡◌};
ghost use Rattle.footprint.specs.Parts.{number_of};

/// Parts of an object: its data, its xattrs and the keys of its omap. That an object is there is no
/// part of it.
#[derive(Clone, Copy, PartialEq, Eq)]
pub struct Parts {
    pub bytes: bool,
    pub xattrs: bool,
    pub keys: bool,
}

impl Parts {
    /// 1 data, 2 xattrs, 4 keys, added.
    pub fn number(self) -> u8
        ensures { result ≡ number_of self }
    {
        let bytes = if self.bytes { 1 } else { 0 };
        let xattrs = if self.xattrs { 2 } else { 0 };
        let keys = if self.keys { 4 } else { 0 };
        bytes + xattrs + keys
    }
}
